// The angle order, in the place of atan2.
ghost use Rattle.std.specs.Prelude.{◌≡◌};
ghost use Rattle.arith_angles.specs.Angle as Order;

use crate::Angle;
use arith::{Vec2, float};

// Whether dx counts as negative.
fn leftward(d: Vec2) -> bool
    ensures { result ≡ Order.leftward d }
{
    float::is_sign_negative(d.x) && !(d.x == 0.0 && d.y != 0.0)
}

// The quarter of d, from 0 to 3.
fn quarter(d: Vec2) -> u64
    ensures { result ≡ Order.quarter d }
{
    match (float::is_sign_negative(d.y), leftward(d)) {
        (true, true) => 0,
        (true, false) => 1,
        (false, false) => 2,
        (false, true) => 3,
    }
}

// |dy| / |dx|, and 0 for 0 / 0.
fn slope(d: Vec2) -> f64
    ensures { result ≡ Order.slope d }
{
    if d.y == 0.0 && d.x == 0.0 {
        0.0
    } else {
        float::abs(d.y) / float::abs(d.x)
    }
}

// What the order compares of d.
pub fn angle_of(d: Vec2) -> Angle
    ensures { result ≡ Order.angle_of d }
{
    Angle {
        quarter: quarter(d),
        slope: slope(d),
    }
}

// a stands before b: in an earlier quarter, or in the same one by the slope.
pub fn precedes(a: Angle, b: Angle) -> bool
    ensures { result ≡ Order.precedes a b }
{
    if a.quarter != b.quarter {
        a.quarter < b.quarter
    } else if a.quarter % 2 == 0 {
        a.slope < b.slope
    } else {
        b.slope < a.slope
    }
}
