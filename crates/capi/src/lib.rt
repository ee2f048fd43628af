// The job, each request alone, how much a case needs, and case files written and converted, for
// programs in other languages.
#![tactic(auto)]

mod alone;
mod files;

ghost use Rattle.std.specs.Prelude.{◌≡◌, length};
ghost use Rattle.case_survey.specs.Survey.{survey_of};
ghost use Rattle.job_promise.specs.Job.{number_of};
ghost use Rattle.job_promise.specs.Promise.{JobPromise};
ghost use Rattle.job_needs.specs.Needs.{needs_result, needs_of};

use job_promise::number_of;

// Runs a job and answers 0, or its refusal.
#[unsafe(no_mangle)]
pub extern "C" fn hookyellow_job(
    case: &[u8],
    requests: &[u8],
    words: &mut [u32],
    floats: &mut [f64],
    marks: &mut [u8],
    answers: &mut [u64],
) -> u64
    ensures { JobPromise case.now requests.now
        (length words.old) (length floats.old) answers.old marks.old
        (record { result = result; answers = answers.new; marks = marks.new }) }
{
    number_of(job::job(case, requests, words, floats, marks, answers))
}

// Answers 0 and stores the least number of work words, of floats and of marks of a job on a case;
// or stores nothing and answers the refusal of the case (1 to 3, or 45), or 21 for fewer than three
// places.
#[unsafe(no_mangle)]
pub extern "C" fn hookyellow_needs(case: &[u8], needs: &mut [usize]) -> u64
    ensures value { result ≡ number_of (needs_result (survey_of case.now) (length needs.old)) }
    ensures needs_after { needs.new ≡ needs_of (survey_of case.now) needs.old }
{
    number_of(job_needs::needs(case, needs))
}
