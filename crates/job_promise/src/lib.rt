// The job's result, and its number; what a run of the job promises stands in specs/.
#![tactic(auto)]

ghost use Rattle.std.specs.Prelude.{◌≡◌};
ghost use Rattle.reading.specs.Result.{Refusable};
ghost use Rattle.job_promise.specs.Job.{number_of};

use refusal::Refusal;

// 0, or the refusal's number. No other result has the same.
pub fn number_of(o: Result<(), Refusal>) -> u64
    ensures value { result ≡ number_of o }
    ensures only { (q : Refusable (Unit {0})) → number_of q ≡ result → q ≡ o }
{
    match o {
        Ok(()) => 0,
        Err(refusal) => refusal.number(),
    }
}
