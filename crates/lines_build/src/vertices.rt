// The distinct points of a cell, in face order: x and y in two arrays.
ghost use Rattle.std.specs.Prelude.{◌≡◌, [], ◌+◌, ◌*◌, ◌<◌, ◌≤◌, length};
ghost use Rattle.arith.specs.Limits.{most_points};
ghost use Rattle.arith.specs.Lists.{any_of, add_new};
ghost use Rattle.arith.specs.Vec.{pair};
ghost use Rattle.mesh_area.specs.Tables.{cell_at};
ghost use Rattle.mesh_area.specs.Layout.{LentWords, points_in, cells_in, mesh_in};
ghost use Rattle.lines_field.specs.Vertices as Vertices;
ghost use Rattle.lines_locate.specs.Locate.{xy_of};
ghost use Rattle.lines_field.specs.Vertices.{add_vertices, cell_vertices};
ghost use Rattle.lines_field.specs.Ensures.{vertices_in, VerticesExit};
ghost use Rattle.mesh_area.specs.Tables.{point_at};

use arith::Vec2;
use mesh_area::Sizes;

// p and (x, y) are equal.
fn alike(p: Vec2, x: f64, y: f64) -> bool
    ensures { result ≡ Vertices.alike p (pair x y) }
{
    p.x == x && p.y == y
}

// Some of the first n points is p.
fn contains(xs: &[f64], ys: &[f64], n: usize, p: Vec2) -> bool
    requires { (n ≤ 24) × (length xs.now ≡ 24) × (length ys.now ≡ 24) }
    ensures { result ≡ any_of (Vertices.alike p) (vertices_in xs.now ys.now n) }
{
    for k in 0..n {
        if alike(p, xs[k], ys[k]) {
            return true;
        }
    }
    false
}

// Adds p after the first n points, unless it is there.
fn push(xs: &mut [f64], ys: &mut [f64], n: usize, p: Vec2) -> usize
    requires n_bound { (n ≤ 24) × (length xs.old ≡ 24) × (length ys.old ≡ 24) }
    requires p_len_bound { length (add_new Vertices.alike (vertices_in xs.old ys.old n) p) ≤ 24 }
    ensures { VerticesExit (add_new Vertices.alike (vertices_in xs.old ys.old n) p)
        xs.old xs.new ys.old ys.new result × (n ≤ result) }
{
    if contains(xs, ys, n, p) {
        return n;
    }
    xs[n] = p.x;
    ys[n] = p.y;
    n + 1
}

// The point of a number, without its height.
fn xy_at(case: &[u8], points: usize, i: usize) -> Vec2
    requires { (points ≤ most_points) × (24 * points ≤ length case.now) }
    ensures { result ≡ xy_of (point_at (points_in case.now points) i) }
{
    let p = mesh_area::point_at(case, points, i);
    Vec2 { x: p.x, y: p.y }
}

// Adds the points of face f. The floats of the area do not matter.
fn add_face(
    case: &[u8],
    points: usize,
    words: &[u32],
    s: Sizes,
    f: usize,
    xs: &mut [f64],
    ys: &mut [f64],
    from: usize,
) -> usize
    requires points_le_most_points { (points ≤ most_points) × (24 * points ≤ length case.now) × LentWords s words.now
        × (from ≤ 24) × (length xs.old ≡ 24) × (length ys.old ≡ 24) }
    requires f_len_bound { length (add_vertices (mesh_in (points_in case.now points) s words.now [])
        (vertices_in xs.old ys.old from) f) ≤ 24 }
    ensures { VerticesExit (add_vertices (mesh_in (points_in case.now points) s words.now [])
        (vertices_in xs.old ys.old from) f)
        xs.old xs.new ys.old ys.new result × (from ≤ result) }
{
    let count = mesh_area::vertex_count(words, s, f);
    let mut n = from;
    for k in 0..count {
        let p = xy_at(case, points, mesh_area::vertex(words, s, f, k));
        n = push(xs, ys, n, p);
    }
    n
}

// The distinct points of cell i. The floats of the area do not matter.
pub fn cell_vertices(
    case: &[u8],
    points: usize,
    words: &[u32],
    s: Sizes,
    i: usize,
    xs: &mut [f64],
    ys: &mut [f64],
) -> usize
    requires points_le_most_points { (points ≤ most_points) × (24 * points ≤ length case.now) × LentWords s words.now
        × (length xs.old ≡ 24) × (length ys.old ≡ 24) }
    requires i_len_bound { length (cell_vertices (mesh_in (points_in case.now points) s words.now [])
        (cell_at (cells_in s words.now []) i)) ≤ 24 }
    ensures { VerticesExit (cell_vertices (mesh_in (points_in case.now points) s words.now [])
        (cell_at (cells_in s words.now []) i))
        xs.old xs.new ys.old ys.new result }
{
    let count = mesh_area::face_count(words, s, i);
    let mut n = 0;
    for k in 0..count {
        let f = mesh_area::cell_face(words, s, i, k);
        n = add_face(case, points, words, s, f, xs, ys, n);
    }
    n
}
