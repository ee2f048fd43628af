// The samples of the cells, one after another.
ghost use Rattle.std.specs.Prelude.{◌≡◌, List, [], ◌∷◌, ◌+◌, ◌*◌, ◌<◌, ◌≤◌, Float};
ghost use Rattle.arith.specs.Limits.{most_cells};
ghost use Rattle.mesh_area.specs.Tables.{cell_at};
ghost use Rattle.mesh_area.specs.Layout.{points_in, mesh_in};
ghost use Rattle.planes_cut.specs.Cut.{cut_of};
ghost use Rattle.planes_sections.specs.Intersect.{piece_of, pieces_from, intersect};
ghost use Rattle.planes_crossings.specs.Ensures.{SliceLengths};
ghost use Rattle.planes_cut.specs.Ensures.{bare};
ghost use Rattle.planes_samples.specs.Ensures.{stream, SampleAllExit, StepExit, SampleEntry};
ghost use Rattle.planes_sums.specs.Kept.{sample_sums_of, cell_in, size_of};
ghost use Rattle.case_file.specs.Trailer.{opened};
ghost use Rattle.case_file.specs.Field.{values_of};

use arith::Vec3;
use case_file::{Counts, field};
use mesh_area::Sizes;
use planes_cut::{Cut, Plane, axes};
use planes_pieces::pieces;
use planes_sums::{Accumulator, keep, measures};

// One piece, whose polygon stands in three slices: what is kept with it, or that it is bad.
fn take_sample(
    case: &[u8],
    n: Counts,
    cut: Cut,
    t: Accumulator,
    cell: usize,
    centre: Vec3,
    k: usize,
    x: &[f64],
    y: &[f64],
    z: &[f64],
    answers: &mut [u64],
    marks: &mut [u8],
) -> Option<Accumulator>
    requires case_value { opened case.now ≡ Ok n }
    requires slice_lengths { SliceLengths x.now y.now z.now k × (1 ≤ k) × (k ≤ 192)
        × (size_of (sample_sums_of t) < 1073741824) }
    ensures { StepExit (stream cut (values_of case.now)
        (cell_in cell centre k x.now y.now z.now ∷ []) (sample_sums_of t)
        answers.old marks.old) t result answers.new marks.new }
{
    let v = field::read_cell(case, n, marks, cell);
    if measures::has_finite_values(v) {
        Some(keep::add(cut, t, cell, centre, k, v, x, y, z, answers))
    } else {
        None
    }
}

// One cell: its piece, where it has one.
fn step(
    case: &[u8],
    n: Counts,
    words: &[u32],
    s: Sizes,
    cut: Cut,
    t: Accumulator,
    cell: usize,
    x: &mut [f64],
    y: &mut [f64],
    z: &mut [f64],
    answers: &mut [u64],
    marks: &mut [u8],
) -> Option<Accumulator>
    requires sample_entry { SampleEntry case.now n s words.now marks.old × (cell < s.cells) }
    requires slice_lengths { SliceLengths x.old y.old z.old 192 × (size_of (sample_sums_of t) < 1073741824) }
    ensures { StepExit (stream cut (values_of case.now)
        (piece_of (bare case.now n.points s words.now) cut cell
        (cell_at (bare case.now n.points s words.now).cells cell)) (sample_sums_of t)
        answers.old marks.old) t result answers.new marks.new }
{
    let piece = pieces::piece_of(case, n.points, words, s, cut, cell, x, y, z);
    match piece {
        Some((centre, k)) => {
            take_sample(case, n, cut, t, cell, centre, k, x, y, z, answers, marks)
        }
        None => Some(t),
    }
}

// All cells in turn, up to and including the first bad one.
fn sample_each(
    case: &[u8],
    n: Counts,
    words: &[u32],
    s: Sizes,
    cut: Cut,
    t: Accumulator,
    x: &mut [f64],
    y: &mut [f64],
    z: &mut [f64],
    answers: &mut [u64],
    marks: &mut [u8],
) -> Option<Accumulator>
    requires sample_entry { SampleEntry case.now n s words.now marks.old × (s.cells ≤ most_cells) }
    requires slice_lengths { SliceLengths x.old y.old z.old 192 × (size_of (sample_sums_of t) ≤ 1) }
    ensures { SampleAllExit (stream cut (values_of case.now)
        (pieces_from (bare case.now n.points s words.now) cut 0
        (bare case.now n.points s words.now).cells) (sample_sums_of t) answers.old
        marks.old) result answers.new marks.new }
{
    let mut tally = t;
    for i in 0..s.cells {
        tally = step(case, n, words, s, cut, tally, i, x, y, z, answers, marks)?;
    }
    Some(tally)
}

// The section's cells in turn.
pub fn sample_all(
    case: &[u8],
    n: Counts,
    words: &[u32],
    s: Sizes,
    plane: Plane,
    t: Accumulator,
    answers: &mut [u64],
    marks: &mut [u8],
) -> Option<Accumulator>
    requires { SampleEntry case.now n s words.now marks.old × (size_of (sample_sums_of t) ≤ 1) }
    ensures { (floats : List Float) → SampleAllExit
        (stream (cut_of (points_in case.now n.points) plane) (values_of case.now)
        (intersect (mesh_in (points_in case.now n.points) s words.now floats) plane)
        (sample_sums_of t) answers.old marks.old) result answers.new marks.new }
{
    let cut = axes::cut_of(case, n.points, plane);
    let mut x = [0.0; 192];
    let mut y = [0.0; 192];
    let mut z = [0.0; 192];
    sample_each(
        case, n, words, s, cut, t, &mut x, &mut y, &mut z, answers, marks,
    )
}
