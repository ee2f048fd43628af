// Bounds of points that stand in the area.
ghost use Rattle.std.specs.Prelude.{◌≡◌, ◌+◌, ◌*◌, ◌<◌, ◌≤◌, length};
ghost use Rattle.arith.specs.Lists.{fold, flatten};
ghost use Rattle.mesh_area.specs.Layout.{LentWords, LentFloats};
ghost use Rattle.lines_field.specs.Bounds as Bounds;
ghost use Rattle.lines_field.specs.Bounds.{bounds_of};
ghost use Rattle.lines_polygon.specs.Vertices.{pairs_from};
ghost use Rattle.lines_field.specs.Ensures.{polygons_in};

use arith::{Vec2, float};
use lines_locate::Box;
use mesh_area::Sizes;

// The box about no point.
pub fn boundless() -> Box
    ensures { result ≡ Bounds.boundless }
{
    Box {
        left: f64::INFINITY,
        bottom: f64::INFINITY,
        right: f64::NEG_INFINITY,
        top: f64::NEG_INFINITY,
    }
}

// The box with one more point.
fn widened(b: Box, p: Vec2) -> Box
    ensures { result ≡ Bounds.widened b p }
{
    Box {
        left: float::min(b.left, p.x),
        bottom: float::min(b.bottom, p.y),
        right: float::max(b.right, p.x),
        top: float::max(b.top, p.y),
    }
}

// The box with n more points, which stand from `at` on.
pub fn widened_by(from: Box, floats: &[f64], at: usize, n: usize) -> Box
    requires { (at + 2 * n ≤ length floats.now) × (n ≤ 24) }
    ensures { result ≡ fold Bounds.widened from (pairs_from floats.now at n) }
{
    let mut b = from;
    for k in 0..n {
        b = widened(b, lines_polygon::pair_at(floats, at + 2 * k));
    }
    b
}

// The bounds of all polygons.
pub fn all_bounds(words: &[u32], floats: &[f64], s: Sizes) -> Box
    requires { LentWords s words.now × LentFloats s floats.now }
    ensures { result ≡ bounds_of (flatten (polygons_in s words.now floats.now)) }
{
    let mut b = boundless();
    for i in 0..s.cells {
        b = widened_by(
            b,
            floats,
            lines_locate::floats_at(s, i),
            lines_locate::count_in(words, s, i),
        );
    }
    b
}
