// Case files written, and converted from one edition to the other: 0 and the file's length, or the
// refusal, under which the output is as it was.
ghost use Rattle.std.specs.Prelude.{◌≡◌, length};
ghost use Rattle.case_contents.specs.Refusals.{written, converted};
ghost use Rattle.case_contents.specs.Promise.{WritePromise, ConvertPromise};
ghost use Rattle.case_writer.specs.Ensures.{holding};
ghost use Rattle.capi_values.specs.Convert.{counts_from, file_told};

use capi_values::{CaseCounts, WrittenFile, convert};

// Writes the file of counts and parts, floats by their bits.
#[unsafe(no_mangle)]
pub extern "C" fn hookyellow_write_case(
    counts: CaseCounts,
    points: &[u64],
    words: &[u32],
    velocities: &[u64],
    pressures: &[u64],
    zones: &[u32],
    out: &mut [u8],
) -> WrittenFile
    ensures value { result ≡ file_told (written
        (holding (counts_from counts) points.now words.now velocities.now
        pressures.now zones.now) (length out.old)) }
    ensures write_promise { WritePromise
        (holding (counts_from counts) points.now words.now velocities.now
        pressures.now zones.now) out.old out.new (written
        (holding (counts_from counts) points.now words.now velocities.now
        pressures.now zones.now) (length out.old)) }
{
    convert::file(case_writer::write_case(
        convert::counts(counts),
        points,
        words,
        velocities,
        pressures,
        zones,
        out,
    ))
}

// Writes a case of the other edition as one of this edition.
#[unsafe(no_mangle)]
pub extern "C" fn hookyellow_convert(case: &[u8], edition: usize, out: &mut [u8]) -> WrittenFile
    ensures value { result ≡ file_told (converted edition case.now (length out.old)) }
    ensures convert_promise { ConvertPromise edition case.now out.old out.new
        (converted edition case.now (length out.old)) }
{
    convert::file(case_writer::convert(case, edition, out))
}
