// The sides of a polygon that a line from a point to the right crosses.
ghost use Rattle.std.specs.Prelude.{◌≡◌};
ghost use Rattle.arith.specs.Polygon as Polygon;

use crate::Vec2;

// The line from q to the right crosses the side from a to b.
pub fn crosses(q: Vec2, a: Vec2, b: Vec2) -> bool
    ensures { result ≡ Polygon.crosses q (record { from = a; to = b }) }
{
    (a.y > q.y) != (b.y > q.y) && q.x < (b.x - a.x) * (q.y - a.y) / (b.y - a.y) + a.x
}
