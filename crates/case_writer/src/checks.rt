// Refusals 1 to 46 of the writer.
ghost use Rattle.std.specs.Prelude.{◌≡◌, ◌*◌, eqb};
ghost use Rattle.case_file.specs.Field.{largest};
ghost use Rattle.case_contents.specs.Refusals.{is_edition, long_as, writable};
ghost use Rattle.case_records.specs.Ensures.{checked};
ghost use Rattle.case_writer.specs.Ensures.{holding, zones_checked};

use case_file::{Counts, trailer};
use refusal::Refusal;

// An edition is 1 or 2.
pub fn is_edition(e: usize) -> bool
    ensures { result ≡ is_edition e }
{
    e == 1 || e == 2
}

// A part has three numbers to each of n.
fn is_threefold(len: usize, n: usize) -> bool
    ensures { result ≡ eqb len (3 * n) }
{
    len % 3 == 0 && len / 3 == n
}

// Each part is as long as its count says.
fn are_long(
    n: Counts,
    points: usize,
    words: usize,
    velocities: usize,
    pressures: usize,
    zones: usize,
) -> bool
    ensures { result ≡ long_as n points words velocities pressures zones }
{
    is_threefold(points, n.points)
        && words == n.words
        && is_threefold(velocities, n.cells)
        && pressures == n.cells
        && zones == n.cells
}

// The largest zone; 0 where there is none.
fn largest_of(zones: &[u32]) -> u32
    ensures { result ≡ largest zones.now }
{
    let mut most = 0u32;
    for zone in zones {
        most = most.max(*zone);
    }
    most
}

// Refusals 45 and 46.
fn check_zones(edition: usize, zones: &[u32]) -> Result<(), Refusal>
    ensures { result ≡ checked (zones_checked edition zones.now) }
{
    let most = largest_of(zones);
    if most > 255 {
        return Err(Refusal::ZoneTooLarge);
    }
    if edition == 1 && most > 0 {
        return Err(Refusal::ZonesLost);
    }
    Ok(())
}

// Refusals 1, 2, 3, 45 and 46.
pub fn check(
    n: Counts,
    points: &[u64],
    words: &[u32],
    velocities: &[u64],
    pressures: &[u64],
    zones: &[u32],
) -> Result<(), Refusal>
    ensures { result ≡ checked (writable
        (holding n points.now words.now velocities.now pressures.now
        zones.now)) }
{
    if !trailer::is_dimension(n.dimension) {
        return Err(Refusal::WrongTrailer);
    }
    if !is_edition(n.edition) {
        return Err(Refusal::WrongTrailer);
    }
    if !are_long(
        n,
        points.len(),
        words.len(),
        velocities.len(),
        pressures.len(),
        zones.len(),
    ) {
        return Err(Refusal::WrongTrailer);
    }
    if trailer::is_over(n) {
        return Err(Refusal::CountOverLimit);
    }
    case_records::walk(words, n.cells)?;
    check_zones(n.edition, zones)
}
