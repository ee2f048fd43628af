// Where a plane meets the sides of one cell.
#![tactic(auto)]

use arith::Vec3;

pub mod crossings;
pub mod slices;

// An end of a side with its height over the plane.
#[derive(Clone, Copy)]
struct End {
    point: Vec3,
    height: f64,
}
