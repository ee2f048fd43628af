// How much a case needs.
#![tactic(auto)]

ghost use Rattle.std.specs.Prelude.{◌≡◌, length};
ghost use Rattle.case_survey.specs.Survey.{survey_of};
ghost use Rattle.job_needs.specs.Needs.{needs_result, needs_of};

use refusal::Refusal;

// Stores the least number of work words, of floats and of marks of a job on a case; or stores
// nothing and answers the refusal of the case (1 to 3, or 45), or 21 for fewer than three places.
pub fn needs(case: &[u8], needs: &mut [usize]) -> Result<(), Refusal>
    ensures value { result ≡ needs_result (survey_of case.now) (length needs.old) }
    ensures needs_after { needs.new ≡ needs_of (survey_of case.now) needs.old }
{
    let (n, faces) = case_survey::survey(case)?;
    if needs.len() < 3 {
        return Err(Refusal::TooFewPlaces);
    }
    needs[0] = 16 * faces + 96 * n.cells;
    needs[1] = 12 * faces + 64 * n.cells;
    needs[2] = n.cells;
    Ok(())
}
