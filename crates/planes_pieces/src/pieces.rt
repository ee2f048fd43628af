// The piece that the plane cuts from one cell.
ghost use Rattle.std.specs.Prelude.{◌≡◌, List, ◌≤◌, Float};
ghost use Rattle.mesh_area.specs.Layout.{points_in, mesh_in};
ghost use Rattle.planes_sections.specs.Intersect.{wide};
ghost use Rattle.planes_crossings.specs.Ensures.{slice_points, SliceLengths, MeshLimits};
ghost use Rattle.planes_cut.specs.Ensures.{MeshLent, bare};
ghost use Rattle.planes_sections.specs.Ensures.{PieceAboutExit, PieceOfExit};

use crate::arrange;
use arith::Vec3;
use mesh_area::Sizes;
use planes_crossings::crossings;
use planes_cut::{Cut, heights};
use planes_sections::measures;

// The polygon's area is above the square of the tolerance.
fn is_wide(cut: Cut, x: &[f64], y: &[f64], z: &[f64], n: usize) -> bool
    requires { SliceLengths x.now y.now z.now n × (1 ≤ n) }
    ensures { result ≡ wide cut (slice_points x.now y.now z.now n) }
{
    let area = measures::area(x, y, z, n);
    cut.tolerance * cut.tolerance < area
}

// The piece about the n points of three slices, with its polygon in three others.
fn piece_about(
    cut: Cut,
    px: &[f64],
    py: &[f64],
    pz: &[f64],
    n: usize,
    x: &mut [f64],
    y: &mut [f64],
    z: &mut [f64],
) -> Option<(Vec3, usize)>
    requires { SliceLengths px.now py.now pz.now n × SliceLengths x.old y.old z.old n × (n ≤ 192) }
    ensures { PieceAboutExit cut (slice_points px.now py.now pz.now n) result
        x.old y.old z.old x.new y.new z.new }
{
    if n < 3 {
        return None;
    }
    let centre = measures::section_centre(px, py, pz, n);
    arrange::arrange(cut.plane, centre, px, py, pz, n, x, y, z);
    if is_wide(cut, x, y, z, n) {
        Some((centre, n))
    } else {
        None
    }
}

// The piece of a cell that the plane may meet.
fn cut_cell(
    case: &[u8],
    points: usize,
    words: &[u32],
    s: Sizes,
    cut: Cut,
    cell: usize,
    x: &mut [f64],
    y: &mut [f64],
    z: &mut [f64],
) -> Option<(Vec3, usize)>
    requires mesh_lent { MeshLent case.now points s words.now × SliceLengths x.old y.old z.old 192 }
    requires mesh_limits { MeshLimits (bare case.now points s words.now) }
    ensures { PieceOfExit (bare case.now points s words.now) cut cell result
        x.old y.old z.old x.new y.new z.new }
{
    if crossings::has_foreign(case, points, words, s, cut, cell) {
        return None;
    }
    let mut px = [0.0; 192];
    let mut py = [0.0; 192];
    let mut pz = [0.0; 192];
    let n = crossings::crossings(case, points, words, s, cut, cell, &mut px, &mut py, &mut pz);
    piece_about(cut, &px, &py, &pz, n, x, y, z)
}

// The piece of a cell: its vertices stand at the front of the three slices, in angle order.
pub fn piece_of(
    case: &[u8],
    points: usize,
    words: &[u32],
    s: Sizes,
    cut: Cut,
    cell: usize,
    x: &mut [f64],
    y: &mut [f64],
    z: &mut [f64],
) -> Option<(Vec3, usize)>
    requires mesh_lent { MeshLent case.now points s words.now × SliceLengths x.old y.old z.old 192 }
    requires mesh_limits { MeshLimits (bare case.now points s words.now) }
    ensures { (floats : List Float) → PieceOfExit
        (mesh_in (points_in case.now points) s words.now floats) cut cell result
        x.old y.old z.old x.new y.new z.new }
{
    if heights::may_meet(case, points, words, s, cut, cell) {
        cut_cell(case, points, words, s, cut, cell, x, y, z)
    } else {
        None
    }
}
