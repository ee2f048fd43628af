// The sort of at most 192 directions.
ghost use Rattle.std.specs.Prelude.{◌≡◌, ◌≤◌, length};
ghost use Rattle.test_arith_exports.specs.Directions as Spec;

use arith::Vec2;
use arith_angles::{angles, sort};

// The quarters and the slopes of all directions.
fn measure(dx: &[f64], dy: &[f64], quarters: &mut [u64], slopes: &mut [f64])
    requires { Spec.EqualLengths dx.now dy.now quarters.old slopes.old }
    ensures quarters_after { quarters.new ≡ Spec.quarters dx.now dy.now
        (length dx.now) }
    ensures slopes_after { slopes.new ≡ Spec.slopes dx.now dy.now (length dx.now) }
{
    for i in 0..dx.len() {
        let angle = angles::angle_of(Vec2 { x: dx[i], y: dy[i] });
        quarters[i] = angle.quarter;
        slopes[i] = angle.slope;
    }
}

// The places of the directions in angle order; quarters and slopes are work space.
fn order(dx: &[f64], dy: &[f64], quarters: &mut [u64], slopes: &mut [f64], places: &mut [usize])
    requires equal_lengths { Spec.EqualLengths dx.now dy.now quarters.old slopes.old }
    requires places_len { length places.old ≡ length dx.now }
    ensures { places.new ≡ Spec.ordered dx.now dy.now }
{
    measure(dx, dy, quarters, slopes);
    sort::sort_by_angle(quarters, slopes, places);
}

// The places of the directions in angle order.
pub fn sort(dx: &[f64], dy: &[f64], places: &mut [usize])
    requires { (length dx.now ≤ 192) × (length dy.now ≡ length dx.now)
        × (length places.old ≡ length dx.now) }
    ensures { places.new ≡ Spec.ordered dx.now dy.now }
{
    let n = dx.len();
    let mut quarters = [0u64; 192];
    let mut slopes = [0.0; 192];
    order(dx, dy, &mut quarters[..n], &mut slopes[..n], places);
}
