// What a job stores in the lent answers and marks: an answer's header, cleared marks, the zeros at the end.
ghost use Rattle.std.specs.Prelude.{◌≡◌, ◌++◌, ◌+◌, ◌-◌, ◌*◌, ◌≤◌, length, set, take, replicate};
ghost use Rattle.reading.specs.Marks.{cleared};
ghost use Rattle.answers.specs.Answer.{header_of};
ghost use Rattle.answers.specs.Ensures.{CloseExit};

use refusal::Refusal;

// Stores the header at `at`: the refusal, or 0, and the count. Where the next answer goes.
fn put_header(answers: &mut [u64], at: usize, refusal: u64, count: usize) -> usize
    requires { at + 2 + count ≤ length answers.old }
    ensures { (result ≡ at + 2 + count)
        × (answers.new ≡ set (set answers.old at refusal) (at + 1) count) }
{
    answers[at] = refusal;
    answers[at + 1] = count as u64;
    at + 2 + count
}

// The header by what was answered; 44 where the words do not fit beside two for each later answer.
pub fn close(answers: &mut [u64], at: usize, later: usize, r: Result<usize, Refusal>) -> usize
    requires { at + 2 + 2 * later ≤ length answers.old }
    ensures { CloseExit (header_of (length answers.old - at) later r)
        answers.old answers.new at result }
{
    match r {
        Err(refusal) => put_header(answers, at, refusal.number(), 0),
        Ok(k) => {
            if k <= answers.len() - at - 2 - 2 * later {
                put_header(answers, at, 0, k)
            } else {
                put_header(answers, at, Refusal::AnswerTooLong.number(), 0)
            }
        }
    }
}

// No mark among the first `cells`.
pub fn clear_marks(marks: &mut [u8], cells: usize)
    requires { cells ≤ length marks.old }
    ensures { marks.new ≡ cleared cells marks.old }
{
    marks[..cells].fill(0);
}

// Zeros from `at` on.
pub fn clear_from(answers: &mut [u64], at: usize)
    requires { at ≤ length answers.old }
    ensures { answers.new ≡ take at answers.old ++ replicate
        (length answers.old - at) 0 }
{
    answers[at..].fill(0);
}
