// The trailer of a case.
ghost use Rattle.std.specs.Prelude.{◌≡◌, ◌≤◌, ◌<◌, length};
ghost use Rattle.arith.specs.Limits.{2^32};
ghost use Rattle.case_file.specs.Trailer as Trailer;
ghost use Rattle.case_file.specs.Ensures as Ensures;

use crate::Counts;
use arith::bytes;
use refusal::Refusal;

// Word k of the trailer.
fn trailer_word(case: &[u8], k: usize) -> usize
    requires { (32 ≤ length case.now) × (k < 8) }
    ensures { (result ≡ Trailer.trailer_word case.now k) × (result < 2^32) }
{
    let at = case.len() - 32 + 4 * k;
    bytes::word_at(case, at) as usize
}

// What the dimension word says: the edition, and the dimension.
fn edition(w: usize) -> usize
    ensures { result ≡ Trailer.edition_of w }
{
    if w == 102 || w == 103 { 2 } else { 1 }
}

fn dimension(w: usize) -> usize
    ensures { result ≡ Trailer.dimension_of w }
{
    match w {
        102 => 2,
        103 => 3,
        _ => w,
    }
}

// The edition of a file that has a trailer.
pub fn edition_of(case: &[u8]) -> usize
    requires { 32 ≤ length case.now }
    ensures { result ≡ (Trailer.counts_of case.now).edition }
{
    edition(trailer_word(case, 0))
}

fn counts(case: &[u8]) -> Counts
    requires { 32 ≤ length case.now }
    ensures { Ensures.CountsExit case.now result }
{
    let w = trailer_word(case, 0);
    Counts {
        dimension: dimension(w),
        points: trailer_word(case, 1),
        words: trailer_word(case, 2),
        cells: trailer_word(case, 3),
        edition: edition(w),
    }
}

// A dimension is 2 or 3.
pub fn is_dimension(d: usize) -> bool
    ensures { result ≡ Trailer.is_dimension d }
{
    d == 2 || d == 3
}

// What edition 2 has between the pressures and the trailer: the zones and their offset.
pub fn zone_bytes(n: Counts) -> usize
    requires { n.cells < 2^32 }
    ensures { (result ≡ Trailer.zone_bytes n) × (result ≤ 17179869184) }
{
    if n.edition == 2 { 4 * n.cells + 4 } else { 0 }
}

// The offset of the zones is as the counts say, summed exactly, where there are zones.
fn has_zones(case: &[u8], n: Counts) -> bool
    requires { Ensures.CountsExit case.now n }
    ensures { result ≡ Trailer.has_zones case.now n }
{
    let zones = 24 * n.points + 4 * n.words + 32 * n.cells;
    n.edition != 2 || (case.len() >= 36 && bytes::word_at(case, case.len() - 36) as usize == zones)
}

// The offsets and the file's length are as the counts say, summed exactly.
fn has_parts(case: &[u8], n: Counts) -> bool
    requires { (32 ≤ length case.now) × Ensures.CountsExit case.now n }
    ensures { result ≡ Trailer.has_parts case.now n }
{
    let words = 24 * n.points;
    let velocities = words + 4 * n.words;
    let pressures = velocities + 24 * n.cells;
    let end = pressures + 8 * n.cells + zone_bytes(n) + 32;
    trailer_word(case, 4) == 0
        && trailer_word(case, 5) == words
        && trailer_word(case, 6) == velocities
        && trailer_word(case, 7) == pressures
        && has_zones(case, n)
        && case.len() == end
}

// A count is over its limit.
pub fn is_over(n: Counts) -> bool
    ensures { result ≡ Trailer.over_limit n }
{
    n.points > 65536 || n.cells > 16384 || n.words > 1048576
}

// The counts of a case, or refusal 1 or 2.
pub fn open(case: &[u8]) -> Result<Counts, Refusal>
    ensures { result ≡ Trailer.opened case.now }
{
    if case.len() < 32 {
        return Err(Refusal::WrongTrailer);
    }
    let n = counts(case);
    if !is_dimension(n.dimension) {
        return Err(Refusal::WrongTrailer);
    }
    if !has_parts(case, n) {
        return Err(Refusal::WrongTrailer);
    }
    if is_over(n) {
        return Err(Refusal::CountOverLimit);
    }
    Ok(n)
}
