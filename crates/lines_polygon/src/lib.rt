// Where a point lies to a polygon, whose vertices stand as x and y from `at` on: `point_in_polygon`.
#![tactic(auto)]

pub mod extent;

ghost use Rattle.std.specs.Prelude.{◌≡◌, ◌+◌, ◌*◌, ◌<◌, ◌≤◌, length};
ghost use Rattle.arith.specs.Lists.{after};
ghost use Rattle.lines_polygon.specs.Contains as Containment;
ghost use Rattle.lines_polygon.specs.Vertices.{pair_from, pairs_from, side_from};

use arith::number::next_of;
use arith::polygon::crosses;
use arith::{Vec2, float};

// Where a point lies to a polygon: outside, on an edge, within 1e-12, or inside.
#[derive(Clone, Copy)]
pub enum Position {
    Outside,
    Edge,
    Inside,
}

// Not outside.
pub fn is_within(p: Position) -> bool
    ensures { result ≡ Containment.is_within p }
{
    matches!(p, Position::Edge | Position::Inside)
}

// A polygon contains no point below `low`, above `high`, to the right of `right` or to the left of `left`.
#[derive(Clone, Copy)]
pub struct Limits {
    pub low: f64,
    pub high: f64,
    pub right: f64,
    pub left: f64,
}

// The ends of a side of a polygon: a vertex and the next one.
#[derive(Clone, Copy)]
struct Ends {
    from: Vec2,
    to: Vec2,
}

// The point whose x and y stand at `at`.
pub fn pair_at(floats: &[f64], at: usize) -> Vec2
    requires { at + 2 ≤ length floats.now }
    ensures { result ≡ pair_from floats.now at }
{
    Vec2 {
        x: floats[at],
        y: floats[at + 1],
    }
}

// a lies from the lower to the higher of b and c, within 1e-12.
fn between(a: f64, b: f64, c: f64) -> bool
    ensures { result ≡ Containment.between a b c }
{
    a >= float::min(b, c) - 1.0e-12 && a <= float::max(b, c) + 1.0e-12
}

// q lies on the line from a to b, within 1e-12. Two tests and no sign: the sign is a branch that cannot be foreseen.
fn on_line(q: Vec2, a: Vec2, b: Vec2) -> bool
    ensures { result ≡ Containment.on_line q (record { from = a; to = b }) }
{
    let v = (b.x - a.x) * (q.y - a.y) - (b.y - a.y) * (q.x - a.x);
    (v <= 1.0e-12) & (v >= -1.0e-12)
}

// q lies on the side from a to b, within 1e-12.
fn on_edge(q: Vec2, a: Vec2, b: Vec2) -> bool
    ensures { result ≡ Containment.on_edge q (record { from = a; to = b }) }
{
    on_line(q, a, b) && between(q.x, a.x, b.x) && between(q.y, a.y, b.y)
}

// The ends of side i of the polygon of n vertices.
fn side_at(floats: &[f64], at: usize, n: usize, i: usize) -> Ends
    requires { (at + 2 * n ≤ length floats.now) × (i < n) }
    ensures { side_from floats.now at n i ≡ record { from = result.from; to = result.to } }
{
    Ends {
        from: pair_at(floats, at + 2 * i),
        to: pair_at(floats, at + 2 * next_of(i, n)),
    }
}

// Where q lies: on an edge where it lies on some side, inside where it crosses an odd number of them.
pub fn point_in_polygon(q: Vec2, floats: &[f64], at: usize, n: usize) -> Position
    requires { (at + 2 * n ≤ length floats.now) × (n ≤ 24) }
    ensures { result ≡ Containment.position q (pairs_from floats.now at n) }
{
    if n < 3 {
        return Position::Outside;
    }
    let mut inside = false;
    for i in 0..n {
        let s = side_at(floats, at, n, i);
        if on_edge(q, s.from, s.to) {
            return Position::Edge;
        }
        if crosses(q, s.from, s.to) {
            inside = !inside;
        }
    }
    if inside {
        Position::Inside
    } else {
        Position::Outside
    }
}
