// The limits of a polygon, found at its vertices and sides.
ghost use Rattle.std.specs.Prelude.{◌≡◌, ◌+◌, ◌*◌, ◌<◌, ◌≤◌, length};
ghost use Rattle.arith.specs.Lists.{all_of, sides};
ghost use Rattle.lines_polygon.specs.Vertices.{pairs_from};
ghost use Rattle.lines_polygon.specs.Extent as Extent;

use crate::{Limits, side_at};
use arith::{Vec2, float};

// The limits whose floats start at `at`.
pub fn limits_at(floats: &[f64], at: usize) -> Limits
    requires { at + 4 ≤ length floats.now }
    ensures { result ≡ Extent.limits_from floats.now at }
{
    Limits {
        low: floats[at],
        high: floats[at + 1],
        right: floats[at + 2],
        left: floats[at + 3],
    }
}

// q lies outside by the limits.
pub fn misses(l: Limits, q: Vec2) -> bool
    ensures { result ≡ Extent.misses l q }
{
    l.high < q.y || l.right < q.x || q.x < l.left || q.y < l.low
}

// A vertex lies within the limits, with 1e-12 to spare.
fn has_end(l: Limits, p: Vec2) -> bool
    ensures { result ≡ Extent.end_within l p }
{
    (l.low <= p.y - 1.0e-12)
        & (l.low <= p.y)
        & (p.y + 1.0e-12 <= l.high)
        & (p.y <= l.high)
        & (p.x + 1.0e-12 <= l.right)
        & (l.left <= p.x - 1.0e-12)
}

// The run of a side, as a crossing at the height of b is computed.
fn run(a: Vec2, b: Vec2) -> f64
    ensures { result ≡ Extent.run (record { from = a; to = b }) }
{
    (b.x - a.x) * (b.y - a.y) / (b.y - a.y)
}

// The side is level.
fn is_level(a: Vec2, b: Vec2) -> bool
    ensures { result ≡ Extent.is_level (record { from = a; to = b }) }
{
    (a.y <= b.y) & (b.y <= a.y)
}

// The side is level, or no crossing with it lies to the right or to the left of the limits.
fn has_crossing(l: Limits, a: Vec2, b: Vec2) -> bool
    ensures { result ≡ Extent.crossing_within l (record { from = a; to = b }) }
{
    if is_level(a, b) {
        return true;
    }
    let u = run(a, b);
    float::is_finite(u)
        && (float::max(u, 0.0) + a.x <= l.right) & (l.left <= float::min(u, 0.0) + a.x)
}

// The side from a to b lies within the limits.
fn has_side(l: Limits, a: Vec2, b: Vec2) -> bool
    ensures { result ≡ Extent.side_within l (record { from = a; to = b }) }
{
    has_end(l, a) && has_end(l, b) && has_crossing(l, a, b)
}

// Every side of the polygon lies within the limits.
fn has_sides(l: Limits, floats: &[f64], at: usize, n: usize) -> bool
    requires { (at + 2 * n ≤ length floats.now) × (n ≤ 24) }
    ensures { result ≡ all_of (Extent.side_within l) (sides (pairs_from floats.now at n)) }
{
    for i in 0..n {
        let s = side_at(floats, at, n, i);
        if !has_side(l, s.from, s.to) {
            return false;
        }
    }
    true
}

// How far to the right a crossing with the side may be computed to lie.
fn reach(a: Vec2, b: Vec2) -> f64
    ensures { result ≡ Extent.reach (record { from = a; to = b }) }
{
    if is_level(a, b) {
        a.x
    } else {
        float::max(run(a, b), 0.0) + a.x
    }
}

// How far to the left.
fn left_reach(a: Vec2, b: Vec2) -> f64
    ensures { result ≡ Extent.left_reach (record { from = a; to = b }) }
{
    if is_level(a, b) {
        a.x
    } else {
        float::min(run(a, b), 0.0) + a.x
    }
}

// The limits with one more side.
fn widened(l: Limits, a: Vec2, b: Vec2) -> Limits
    ensures { result ≡ Extent.widened l (record { from = a; to = b }) }
{
    Limits {
        low: float::min(l.low, a.y),
        high: float::max(l.high, a.y),
        right: float::max(l.right, reach(a, b)),
        left: float::min(l.left, left_reach(a, b)),
    }
}

// The limits with 1e-12 to spare.
fn spared(l: Limits) -> Limits
    ensures { result ≡ Extent.spared l }
{
    Limits {
        low: l.low - 1.0e-12,
        high: l.high + 1.0e-12,
        right: l.right + 1.0e-12,
        left: l.left - 1.0e-12,
    }
}

// The limits about no side.
fn sideless() -> Limits
    ensures { result ≡ Extent.sideless }
{
    Limits {
        low: f64::INFINITY,
        high: f64::NEG_INFINITY,
        right: f64::NEG_INFINITY,
        left: f64::INFINITY,
    }
}

// No limits.
fn unlimited() -> Limits
    ensures { result ≡ Extent.unlimited }
{
    Limits {
        low: f64::NEG_INFINITY,
        high: f64::INFINITY,
        right: f64::INFINITY,
        left: f64::NEG_INFINITY,
    }
}

// The narrowest limits about a polygon that has no NaN.
fn narrowest(floats: &[f64], at: usize, n: usize) -> Limits
    requires { (at + 2 * n ≤ length floats.now) × (n ≤ 24) }
    ensures { result ≡ Extent.narrowest (sides (pairs_from floats.now at n)) }
{
    let mut l = sideless();
    for i in 0..n {
        let s = side_at(floats, at, n, i);
        l = widened(l, s.from, s.to);
    }
    spared(l)
}

// Limits of the polygon: the narrowest where every side is found to be within them, else none.
pub fn limits_of(floats: &[f64], at: usize, n: usize) -> Limits
    requires { (at + 2 * n ≤ length floats.now) × (n ≤ 24) }
    ensures { result ≡ Extent.limits_of (pairs_from floats.now at n) }
{
    let l = narrowest(floats, at, n);
    if has_sides(l, floats, at, n) {
        l
    } else {
        unlimited()
    }
}
