// The order of angles, and its sort.
#![tactic(auto)]

pub mod angles;
pub mod sort;

// A direction of a plane, as the angle order compares it.
#[derive(Clone, Copy)]
pub struct Angle {
    pub quarter: u64,
    pub slope: f64,
}
