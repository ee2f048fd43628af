// The text that `airjob` prints, from the bytes of its two files and the buffers that it lends.
#![tactic(auto)]

ghost use Rattle.std.specs.Prelude.{◌/◌, ◌≡◌, length};
ghost use Rattle.job_promise.specs.Job.{number_of};
ghost use Rattle.report.specs.Report.{ended, ReportExit};

use job_promise::number_of;
use refusal::Refusal;
use report_parts::{is_too_long, put_listing};

// Runs the job, unless a file is too long.
fn run(
    case: &[u8],
    requests: &[u8],
    words: &mut [u32],
    floats: &mut [f64],
    marks: &mut [u8],
    answers: &mut [u64],
) -> Result<(), Refusal>
    ensures { ended case.now requests.now
        (length words.old) (length floats.old) answers.old marks.old
        ≡ record { result = number_of result; answers = answers.new; marks = marks.new } }
{
    if is_too_long(case.len()) {
        return Err(Refusal::FileTooLong);
    }
    if is_too_long(requests.len()) {
        return Err(Refusal::FileTooLong);
    }
    job::job(case, requests, words, floats, marks, answers)
}

// Runs the job and writes its text; a file that is too long is refused before. How long the text is, or one
// more than the room for it.
pub fn report(
    case: &[u8],
    requests: &[u8],
    words: &mut [u32],
    floats: &mut [f64],
    marks: &mut [u8],
    answers: &mut [u64],
    text: &mut [u8],
) -> usize
    ensures { ReportExit (ended case.now requests.now
        (length words.old) (length floats.old) answers.old marks.old)
        (length requests.now / 128) text.old text.new result answers.new
        marks.new }
{
    let k = number_of(run(case, requests, words, floats, marks, answers));
    put_listing(text, k, answers, requests.len() / 128, marks)
}
