// Where the sides of a cell's faces meet the plane.
ghost use Rattle.std.specs.Prelude.{◌≡◌, [], ◌+◌, ◌*◌, ◌≤◌, ◌<◌, length};
ghost use Rattle.arith.specs.Lists.{any_of, all_of, after};
ghost use Rattle.mesh_area.specs.Tables.{cell_at, face_at};
ghost use Rattle.planes_cut.specs.Cut.{near};
ghost use Rattle.planes_crossings.specs.Crossings as Crossings;
ghost use Rattle.planes_crossings.specs.Crossings.{on_plane, foreign, add_crossing, add_face, crossings};
ghost use Rattle.planes_crossings.specs.Ensures.{slice_points, SliceLengths, PointList, MeshLimits, TrueHeight, crossing_of};
ghost use Rattle.planes_cut.specs.Ensures.{bare, MeshLent, face_vertex};

use crate::{End, slices};
use arith::Vec3;
use arith::number::next_of;
use mesh_area::Sizes;
use planes_cut::{Cut, heights};

// a lies in the plane, within the tolerance.
fn is_near_end(cut: Cut, a: End) -> bool
    requires { TrueHeight cut a }
    ensures { result ≡ near cut a.point }
{
    heights::is_near_at(cut, a.height)
}

// a lies below the plane and b above it.
fn rises(cut: Cut, a: End, b: End) -> bool
    requires { TrueHeight cut a × TrueHeight cut b }
    ensures { result ≡ Crossings.rises cut a.point b.point }
{
    a.height < -cut.tolerance && b.height > cut.tolerance
}

// The ends of a side lie on both sides of the plane.
fn parted(cut: Cut, a: End, b: End) -> bool
    requires { TrueHeight cut a × TrueHeight cut b }
    ensures { result ≡ Crossings.parted cut a.point b.point }
{
    rises(cut, a, b) || rises(cut, b, a)
}

// The point between a and b at which the side meets the plane.
fn between(cut: Cut, a: End, b: End) -> Vec3
    requires { TrueHeight cut a × TrueHeight cut b }
    ensures { result ≡ Crossings.between cut a.point b.point }
{
    a.point.add(b.point.sub(a.point).scale(a.height / (a.height - b.height)))
}

// Where the side from a to b meets the plane.
fn crossing(cut: Cut, a: End, b: End) -> Option<Vec3>
    requires { TrueHeight cut a × TrueHeight cut b }
    ensures { result ≡ crossing_of cut a.point b.point }
{
    let p = a.point;
    if is_near_end(cut, a) {
        Some(p)
    } else if parted(cut, a, b) {
        Some(between(cut, a, b))
    } else {
        None
    }
}

// Adds to the n points where the side from a to b meets the plane; how many there are then.
fn add_crossing(
    cut: Cut,
    a: End,
    b: End,
    x: &mut [f64],
    y: &mut [f64],
    z: &mut [f64],
    n: usize,
) -> usize
    requires { TrueHeight cut a × TrueHeight cut b × SliceLengths x.old y.old z.old (n + 1) }
    ensures { PointList (add_crossing cut (slice_points x.old y.old z.old n)
        a.point b.point) x.old y.old z.old x.new y.new
        z.new n result (n + 1) }
{
    let m = crossing(cut, a, b);
    match m {
        Some(p) => slices::add_new(cut, p, x, y, z, n),
        None => n,
    }
}

// Vertex k of face f with its height.
fn end_at(case: &[u8], points: usize, words: &[u32], s: Sizes, cut: Cut, f: usize, k: usize) -> End
    requires { MeshLent case.now points s words.now }
    ensures { (result.point ≡ face_vertex (bare case.now points s words.now) f k)
        × TrueHeight cut result }
{
    let point = heights::face_vertex(case, points, words, s, f, k);
    let height = heights::height(cut, point);
    End { point, height }
}

// Adds to the points where the sides of face f meet the plane; each vertex is read once, as the
// end of one side and the start of the next.
fn add_face(
    case: &[u8],
    points: usize,
    words: &[u32],
    s: Sizes,
    cut: Cut,
    f: usize,
    x: &mut [f64],
    y: &mut [f64],
    z: &mut [f64],
    from: usize,
) -> usize
    requires mesh_lent { MeshLent case.now points s words.now × SliceLengths x.old y.old z.old (from + 8) }
    requires f_len_bound { length (face_at (bare case.now points s words.now).faces f).vertices ≤ 8 }
    ensures { PointList (add_face (bare case.now points s words.now) cut
        (slice_points x.old y.old z.old from) f)
        x.old y.old z.old x.new y.new z.new from result
        (from + 8) }
{
    let count = mesh_area::vertex_count(words, s, f);
    let mut n = from;
    let mut a = end_at(case, points, words, s, cut, f, 0);
    for k in 0..count {
        let b = end_at(case, points, words, s, cut, f, next_of(k, count));
        n = add_crossing(cut, a, b, x, y, z, n);
        a = b;
    }
    n
}

// The points at which the plane meets the sides of a cell: how many.
pub fn crossings(
    case: &[u8],
    points: usize,
    words: &[u32],
    s: Sizes,
    cut: Cut,
    cell: usize,
    x: &mut [f64],
    y: &mut [f64],
    z: &mut [f64],
) -> usize
    requires mesh_lent { MeshLent case.now points s words.now × SliceLengths x.old y.old z.old 192 }
    requires mesh_limits { MeshLimits (bare case.now points s words.now) }
    ensures { PointList (crossings (bare case.now points s words.now) cut
        (cell_at (bare case.now points s words.now).cells cell).faces)
        x.old y.old z.old x.new y.new z.new 0 result 192 }
{
    let count = mesh_area::face_count(words, s, cell);
    let mut n = 0;
    for j in 0..count {
        let f = mesh_area::cell_face(words, s, cell, j);
        n = add_face(case, points, words, s, cut, f, x, y, z, n);
    }
    n
}

// Every vertex of face f lies in the plane.
fn on_plane(case: &[u8], points: usize, words: &[u32], s: Sizes, cut: Cut, f: usize) -> bool
    requires { MeshLent case.now points s words.now }
    ensures { result ≡ all_of (on_plane (bare case.now points s words.now) cut)
        (face_at (bare case.now points s words.now).faces f).vertices }
{
    let n = mesh_area::vertex_count(words, s, f);
    (0..n).all(|k| heights::is_near(cut, heights::face_vertex(case, points, words, s, f, k)))
}

// The plane holds face f of the cell, which another cell owns.
fn is_foreign(
    case: &[u8],
    points: usize,
    words: &[u32],
    s: Sizes,
    cut: Cut,
    cell: usize,
    f: usize,
) -> bool
    requires { MeshLent case.now points s words.now }
    ensures { result ≡ foreign (bare case.now points s words.now) cut cell f }
{
    let other = mesh_area::neighbour_of(words, s, f);
    match other {
        Some(_) => {
            mesh_area::owner_of(words, s, f) != cell && on_plane(case, points, words, s, cut, f)
        }
        None => false,
    }
}

// The plane holds some face of the cell that another cell owns.
pub fn has_foreign(
    case: &[u8],
    points: usize,
    words: &[u32],
    s: Sizes,
    cut: Cut,
    cell: usize,
) -> bool
    requires { MeshLent case.now points s words.now }
    ensures { result ≡ any_of (foreign (bare case.now points s words.now) cut cell)
        (cell_at (bare case.now points s words.now).cells cell).faces }
{
    let count = mesh_area::face_count(words, s, cell);
    (0..count).any(|j| {
        let f = mesh_area::cell_face(words, s, cell, j);
        is_foreign(case, points, words, s, cut, cell, f)
    })
}
