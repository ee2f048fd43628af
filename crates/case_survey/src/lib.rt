// The survey of a case, before anything is made of it.
#![tactic(auto)]

ghost use Rattle.case_survey.specs.Ensures.{SurveyExit};

use case_definitions::walker;
use case_file::{Counts, field, trailer};
use refusal::Refusal;

// Opens a case, walks its definitions and looks at its zones: its counts and the number of faces of
// all its definitions, or refusal 1, 2, 3 or 45.
pub fn survey(case: &[u8]) -> Result<(Counts, usize), Refusal>
    ensures { SurveyExit case.now result }
{
    let n = trailer::open(case)?;
    let faces = walker::walk(walker::words(case, n), n.cells)?;
    if !field::zones_within(case, n) {
        return Err(Refusal::ZoneTooLarge);
    }
    Ok((n, faces))
}
