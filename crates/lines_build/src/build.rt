// `StreamlineField::from_dataset`: every cell's polygon, in angle order, then the grid and the bins.
ghost use Rattle.std.specs.Prelude.{◌≡◌, map, [], ◌∷◌, ℕ, ◌+◌, ◌*◌, ◌<◌, ◌≤◌, length, take, get_or};
ghost use Rattle.arith.specs.Limits.{most_points};
ghost use Rattle.arith.specs.Lists as Lists;
ghost use Rattle.arith.specs.Records.{puts};
ghost use Rattle.mesh_area.specs.Tables.{cell_at};
ghost use Rattle.mesh_area.specs.Layout.{floats_end, LentWords, LentFloats, points_in, mesh_in, cells_in};
ghost use Rattle.lines_field.specs.Vertices.{turns_about, cell_vertices, polygon_of};
ghost use Rattle.lines_field.specs.Ensures.{VertexLimit, vertex_in, vertices_in, polygons_in, AnglesAboutExit, PolygonExit, PutPolygonExit, MeshKept, LimitCellExit, FromDatasetExit};
ghost use Rattle.lines_field.specs.Field.{polygons_of};
ghost use Rattle.lines_polygon.specs.Vertices.{pairs_from};
ghost use Rattle.lines_locate.specs.Ensures.{HasLimits};

use crate::vertices;
use arith::{Vec2, Vec3};
use arith_angles::{angles, sort};
use lines_field::{bins, bounds};
use lines_locate::Grid;
use lines_polygon::{Limits, extent};
use mesh_area::Sizes;
use refusal::Refusal;

// The quarters and slopes of the first n points about a centre.
fn angles_about(
    xs: &[f64],
    ys: &[f64],
    n: usize,
    centre: Vec3,
    quarters: &mut [u64],
    slopes: &mut [f64],
)
    requires { (n ≤ 24) × (length xs.now ≡ 24) × (length ys.now ≡ 24) × (length quarters.old ≡ 24)
        × (length slopes.old ≡ 24) }
    ensures { AnglesAboutExit centre xs.now ys.now quarters.new
        slopes.new n }
{
    for k in 0..n {
        let a = angles::angle_of(Vec2 {
            x: xs[k] - centre.x,
            y: ys[k] - centre.y,
        });
        quarters[k] = a.quarter;
        slopes[k] = a.slope;
    }
}

// The places of the first n points in angle order about a centre.
fn sort_vertices(xs: &[f64], ys: &[f64], n: usize, centre: Vec3, places: &mut [usize])
    requires { (n ≤ 24) × (length xs.now ≡ 24) × (length ys.now ≡ 24) × (length places.old ≡ 24) }
    ensures { (map (vertex_in xs.now ys.now) (take n places.new) ≡ Lists.sort
        (turns_about centre) (vertices_in xs.now ys.now n))
        × ((k : ℕ) → k < n → get_or places.new k 0 < n) }
{
    let mut quarters = [0u64; 24];
    let mut slopes = [0.0; 24];
    angles_about(xs, ys, n, centre, &mut quarters, &mut slopes);
    sort::sort_by_angle(&quarters[..n], &slopes[..n], &mut places[..n]);
}

// Stores the points at their places, as x and y from `at` on.
fn store_vertices(floats: &mut [f64], at: usize, xs: &[f64], ys: &[f64], places: &[usize], n: usize)
    requires { (at + 48 ≤ length floats.old) × (n ≤ 24) × (length xs.now ≡ 24) × (length ys.now ≡ 24)
        × (length places.now ≡ 24) × ((k : ℕ) → k < n → get_or places.now k 0 < n) }
    ensures { (pairs_from floats.new at n ≡ map (vertex_in xs.now ys.now)
        (take n places.now))
        × (take at floats.new ≡ take at floats.old) }
{
    for k in 0..n {
        let j = places[k];
        let i = at + 2 * k;
        floats[i] = xs[j];
        floats[i + 1] = ys[j];
    }
}

// The polygon of cell i: its points, and their places in angle order.
fn polygon(
    case: &[u8],
    points: usize,
    words: &[u32],
    floats: &[f64],
    s: Sizes,
    i: usize,
    xs: &mut [f64],
    ys: &mut [f64],
    places: &mut [usize],
) -> usize
    requires points_le_most_points { (points ≤ most_points) × (24 * points ≤ length case.now) × LentWords s words.now
        × LentFloats s floats.now }
    requires xs_len { (length xs.old ≡ 24) × (length ys.old ≡ 24) × (length places.old ≡ 24) }
    requires i_len_bound { length (cell_vertices (mesh_in (points_in case.now points) s words.now floats.now)
        (cell_at (cells_in s words.now floats.now) i)) ≤ 24 }
    ensures { PolygonExit (polygon_of (mesh_in (points_in case.now points) s words.now
        floats.now) (cell_at (cells_in s words.now floats.now) i)) xs.new
        ys.new places.new result }
{
    let n = vertices::cell_vertices(case, points, words, s, i, xs, ys);
    sort_vertices(xs, ys, n, mesh_area::centre_of(floats, s, i), places);
    n
}

// Stores the n points at their places as the polygon of cell i.
fn store_polygon(
    words: &mut [u32],
    floats: &mut [f64],
    s: Sizes,
    i: usize,
    xs: &[f64],
    ys: &[f64],
    places: &[usize],
    n: usize,
)
    requires lent_words { LentWords s words.old × LentFloats s floats.old × (i < s.cells) }
    requires xs_len { (length xs.now ≡ 24) × (length ys.now ≡ 24) × (length places.now ≡ 24) × (n ≤ 24)
        × ((k : ℕ) → k < n → get_or places.now k 0 < n) }
    ensures { PutPolygonExit (map (vertex_in xs.now ys.now) (take n places.now))
        s words.old words.new floats.old floats.new i }
{
    store_vertices(floats, lines_locate::floats_at(s, i), xs, ys, places, n);
    let at = lines_locate::words_at(s, i);
    words[at + 4] = n as u32;
}

// Stores the polygon of cell i.
fn put_polygon(
    case: &[u8],
    points: usize,
    words: &mut [u32],
    floats: &mut [f64],
    s: Sizes,
    i: usize,
)
    requires points_le_most_points { (points ≤ most_points) × (24 * points ≤ length case.now) × LentWords s words.old
        × LentFloats s floats.old × (i < s.cells) }
    requires i_len_bound { length (cell_vertices (mesh_in (points_in case.now points) s words.old floats.old)
        (cell_at (cells_in s words.old floats.old) i)) ≤ 24 }
    ensures { PutPolygonExit (polygon_of (mesh_in (points_in case.now points) s words.old
        floats.old) (cell_at (cells_in s words.old floats.old) i)) s words.old
        words.new floats.old floats.new i }
{
    let mut xs = [0.0; 24];
    let mut ys = [0.0; 24];
    let mut places = [0usize; 24];
    let n = polygon(
        case,
        points,
        words,
        floats,
        s,
        i,
        &mut xs,
        &mut ys,
        &mut places,
    );
    store_polygon(words, floats, s, i, &xs, &ys, &places, n);
}

// Stores the polygons of all cells.
fn put_polygons(case: &[u8], points: usize, words: &mut [u32], floats: &mut [f64], s: Sizes)
    requires points_le_most_points { (points ≤ most_points) × (24 * points ≤ length case.now) × LentWords s words.old
        × LentFloats s floats.old }
    requires vertex_limit { VertexLimit (mesh_in (points_in case.now points) s words.old floats.old) }
    ensures { (polygons_in s words.new floats.new ≡ polygons_of
        (mesh_in (points_in case.now points) s words.old floats.old))
        × MeshKept s words.old words.new floats.old floats.new }
{
    for i in 0..s.cells {
        put_polygon(case, points, words, floats, s, i);
    }
}

// Stores limits from `at` on.
fn put_limits(floats: &mut [f64], at: usize, l: Limits)
    requires { at + 4 ≤ length floats.old }
    ensures { floats.new ≡ puts floats.old at (l.low ∷ l.high ∷ l.right ∷ l.left ∷ []) }
{
    floats[at] = l.low;
    floats[at + 1] = l.high;
    floats[at + 2] = l.right;
    floats[at + 3] = l.left;
}

// Stores the limits of cell i's polygon with it.
fn limit_cell(words: &[u32], floats: &mut [f64], s: Sizes, i: usize)
    requires { LentWords s words.now × LentFloats s floats.old × (i < s.cells) }
    ensures { LimitCellExit s words.now floats.old floats.new i }
{
    let at = lines_locate::floats_at(s, i);
    let l = extent::limits_of(floats, at, lines_locate::count_in(words, s, i));
    put_limits(floats, at + 48, l);
}

// Stores the limits of every polygon with it.
fn limit_cells(words: &[u32], floats: &mut [f64], s: Sizes)
    requires { LentWords s words.now × LentFloats s floats.old }
    ensures { (polygons_in s words.now floats.new ≡ polygons_in s words.now
        floats.old)
        × (take (floats_end s) floats.new ≡ take (floats_end s) floats.old)
        × HasLimits s words.now floats.new }
{
    for i in 0..s.cells {
        limit_cell(words, floats, s, i);
    }
}

// Stores the polygons of all cells, with their limits.
fn put_cells(case: &[u8], points: usize, words: &mut [u32], floats: &mut [f64], s: Sizes)
    requires points_le_most_points { (points ≤ most_points) × (24 * points ≤ length case.now) × LentWords s words.old
        × LentFloats s floats.old }
    requires vertex_limit { VertexLimit (mesh_in (points_in case.now points) s words.old floats.old) }
    ensures { (polygons_in s words.new floats.new ≡ polygons_of
        (mesh_in (points_in case.now points) s words.old floats.old))
        × MeshKept s words.old words.new floats.old floats.new
        × HasLimits s words.new floats.new }
{
    put_polygons(case, points, words, floats, s);
    limit_cells(words, floats, s);
}

// The grid of the field that now stands in the area, or the refusal 18 or 19.
pub fn from_dataset(
    case: &[u8],
    points: usize,
    words: &mut [u32],
    floats: &mut [f64],
    s: Sizes,
) -> Result<Grid, Refusal>
    requires points_le_most_points { (points ≤ most_points) × (24 * points ≤ length case.now) × LentWords s words.old
        × LentFloats s floats.old }
    requires vertex_limit { VertexLimit (mesh_in (points_in case.now points) s words.old floats.old) }
    ensures { FromDatasetExit (mesh_in (points_in case.now points) s words.old
        floats.old) s words.new floats.new result
        × MeshKept s words.old words.new floats.old floats.new }
{
    put_cells(case, points, words, floats, s);
    let b = bounds::all_bounds(words, floats, s);
    let n = bins::bin_counts(s.cells, b);
    let g = bins::grid_for(b, n)?;
    bins::index_cells(words, floats, s, g);
    Ok(g)
}
