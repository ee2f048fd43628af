// The parts of a file, stored at their places.
ghost use Rattle.std.specs.Prelude.{◌≡◌, ◌++◌, ◌+◌, ◌*◌, ◌≤◌, length};
ghost use Rattle.arith_bytes.specs.Stored.{all_bytes, stored};
ghost use Rattle.case_file.specs.Trailer.{zones_from, trailer_from, opened};
ghost use Rattle.case_file.specs.Field.{zones_of};
ghost use Rattle.case_contents.specs.Contents.{dimension_word, trailer_of, zone_words, front_of};
ghost use Rattle.case_contents.specs.Accepted.{SizedCounts};
ghost use Rattle.case_writer.specs.Ensures.{holding, end_bytes, end_from, PutFieldsEntry, PutEndEntry, CopyEntry};

use case_file::{Counts, field, trailer};

// The length of a file with these counts.
pub fn file_length(n: Counts) -> usize
    requires { SizedCounts n }
    ensures { result ≡ trailer_from n + 32 }
{
    24 * n.points + 4 * n.words + 32 * n.cells + trailer::zone_bytes(n) + 32
}

// Points, definition words, velocities and pressures.
pub fn put_fields(
    n: Counts,
    points: &[u64],
    words: &[u32],
    velocities: &[u64],
    pressures: &[u64],
    zones: &[u32],
    out: &mut [u8],
)
    requires { PutFieldsEntry
        (holding n points.now words.now velocities.now pressures.now zones.now) (length out.old) }
    ensures { out.new ≡ stored 0 (front_of
        (holding n points.now words.now velocities.now pressures.now
        zones.now)) out.old }
{
    let words_at = 24 * n.points;
    let velocities_at = words_at + 4 * n.words;
    let pressures_at = velocities_at + 24 * n.cells;
    arith_bytes::put_u64s(out, 0, points);
    arith_bytes::put_u32s(out, words_at, words);
    arith_bytes::put_u64s(out, velocities_at, velocities);
    arith_bytes::put_u64s(out, pressures_at, pressures);
}

fn dimension_word(n: Counts) -> u32
    requires { SizedCounts n }
    ensures { result ≡ dimension_word n }
{
    if n.edition != 2 {
        return n.dimension as u32;
    }
    (n.dimension + 100) as u32
}

// The trailer, at `at`.
fn put_trailer(n: Counts, out: &mut [u8], at: usize)
    requires { SizedCounts n × (at + 32 ≤ length out.old) }
    ensures { out.new ≡ stored at (all_bytes 4 (trailer_of n)) out.old }
{
    let words = 24 * n.points;
    let velocities = words + 4 * n.words;
    let pressures = velocities + 24 * n.cells;
    let trailer = [
        dimension_word(n),
        n.points as u32,
        n.words as u32,
        n.cells as u32,
        0,
        words as u32,
        velocities as u32,
        pressures as u32,
    ];
    arith_bytes::put_u32s(out, at, &trailer);
}

// The trailer, in edition 2 after the offset of the zones.
fn put_end(n: Counts, out: &mut [u8])
    requires { PutEndEntry n (length out.old) }
    ensures { out.new ≡ stored (end_from n) (end_bytes n) out.old }
{
    let zones = 24 * n.points + 4 * n.words + 32 * n.cells;
    if n.edition != 2 {
        put_trailer(n, out, zones);
        return;
    }
    let end = zones + 4 * n.cells;
    arith_bytes::put_number(out, end, zones as u64, 4);
    put_trailer(n, out, end + 4);
}

// What stands after the pressures.
pub fn put_zones_and_end(n: Counts, zones: &[u32], out: &mut [u8])
    requires { PutEndEntry n (length out.old) × (length zones.now ≡ n.cells) }
    ensures { out.new ≡ stored (zones_from n)
        (all_bytes 4 (zone_words n zones.now) ++ end_bytes n) out.old }
{
    if n.edition == 2 {
        arith_bytes::put_u32s(out, 24 * n.points + 4 * n.words + 32 * n.cells, zones);
    }
    put_end(n, out);
}

// The zones of a case.
fn copy_zones(case: &[u8], n: Counts, out: &mut [u8])
    requires { (opened case.now ≡ Ok n) × (zones_from n + 4 * n.cells ≤ length out.old) }
    ensures { out.new ≡ stored (zones_from n) (all_bytes 4 (zones_of case.now))
        out.old }
{
    let at = 24 * n.points + 4 * n.words + 32 * n.cells;
    for i in 0..n.cells {
        arith_bytes::put_number(out, at + 4 * i, u64::from(field::zone(case, n, i)), 4);
    }
}

// What stands after the pressures in the file with counts `to` that is made of a case.
pub fn copy_zones_and_end(case: &[u8], n: Counts, to: Counts, out: &mut [u8])
    requires { CopyEntry case.now n to (length out.old) }
    ensures { out.new ≡ stored (zones_from to)
        (all_bytes 4 (zone_words to (zones_of case.now)) ++ end_bytes to) out.old }
{
    if to.edition == 2 {
        copy_zones(case, n, out);
    }
    put_end(to, out);
}
