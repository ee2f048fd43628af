// The writer of case files, from dimension, counts and parts to the bytes of a file of either
// edition; and the converter from one edition to the other.
#![tactic(auto)]

ghost use Rattle.std.specs.Prelude.{◌≡◌};
ghost use Rattle.case_file.specs.Trailer.{opened};
ghost use Rattle.case_contents.specs.Contents.{contents_of, in_edition};
ghost use Rattle.case_contents.specs.Refusals.{loses_zones};
ghost use Rattle.case_contents.specs.Accepted.{Sized};
ghost use Rattle.case_contents.specs.Promise.{WritePromise, ConvertPromise};
ghost use Rattle.case_writer.specs.Ensures.{holding, FileExit, PutCopyEntry};

use case_file::{Counts, field, trailer};
use refusal::Refusal;

mod checks;
mod parts;

// Writes the file of counts and parts to the front of `out` and answers its length; or answers the
// refusal and leaves `out` as it was. Floats are given by their bits.
pub fn write_case(
    n: Counts,
    points: &[u64],
    words: &[u32],
    velocities: &[u64],
    pressures: &[u64],
    zones: &[u32],
    out: &mut [u8],
) -> Result<usize, Refusal>
    ensures { WritePromise
        (holding n points.now words.now velocities.now pressures.now
        zones.now) out.old out.new result }
{
    checks::check(n, points, words, velocities, pressures, zones)?;
    put_file(n, points, words, velocities, pressures, zones, out)
}

// The file of parts that are right, if there is room: refusal 47.
fn put_file(
    n: Counts,
    points: &[u64],
    words: &[u32],
    velocities: &[u64],
    pressures: &[u64],
    zones: &[u32],
    out: &mut [u8],
) -> Result<usize, Refusal>
    requires { Sized (holding n points.now words.now velocities.now pressures.now zones.now) }
    ensures { FileExit
        (holding n points.now words.now velocities.now pressures.now
        zones.now) out.old out.new result }
{
    let length = parts::file_length(n);
    if out.len() < length {
        return Err(Refusal::ShortOutput);
    }
    parts::put_fields(n, points, words, velocities, pressures, zones, out);
    parts::put_zones_and_end(n, zones, out);
    Ok(length)
}

// Conversion of a case to this edition would lose a zone.
fn loses_zones(case: &[u8], n: Counts, edition: usize) -> bool
    requires { opened case.now ≡ Ok n }
    ensures { result ≡ loses_zones (in_edition edition (contents_of case.now)) }
{
    edition == 1 && !field::zones_at_most(case, n, 0)
}

// The file of a case that was read, in this edition, if there is room: refusal 47.
fn put_copy(case: &[u8], n: Counts, edition: usize, out: &mut [u8]) -> Result<usize, Refusal>
    requires { PutCopyEntry case.now n edition }
    ensures { FileExit (in_edition edition (contents_of case.now)) out.old
        out.new result }
{
    let to = Counts { edition, ..n };
    let length = parts::file_length(to);
    if out.len() < length {
        return Err(Refusal::ShortOutput);
    }
    arith_bytes::copy(case, 24 * n.points + 4 * n.words + 32 * n.cells, out);
    parts::copy_zones_and_end(case, n, to, out);
    Ok(length)
}

// Writes a case of the other edition to the front of `out` as one of this edition and answers the
// file's length; or answers the refusal and leaves `out` as it was.
pub fn convert(case: &[u8], edition: usize, out: &mut [u8]) -> Result<usize, Refusal>
    ensures { ConvertPromise edition case.now out.old out.new result }
{
    if !checks::is_edition(edition) {
        return Err(Refusal::WrongTrailer);
    }
    if case.len() < 32 {
        return Err(Refusal::WrongTrailer);
    }
    if trailer::edition_of(case) == edition {
        return Err(Refusal::WrongTrailer);
    }
    let (n, _) = case_survey::survey(case)?;
    if loses_zones(case, n, edition) {
        return Err(Refusal::ZonesLost);
    }
    put_copy(case, n, edition, out)
}
