// Streamlines over a 2D case: `integrate` and `integrate_rake`.
#![tactic(auto)]

pub mod integrate;
mod line;
pub mod rakes;

use arith::Vec3;
use lines_step::StreamlineOptions;

#[derive(Clone, Copy)]
pub enum StreamlineDirection {
    Forward,
    Backward,
}

// How a line is traced.
#[derive(Clone, Copy)]
pub struct StreamlineSettings {
    pub direction: StreamlineDirection,
    pub options: StreamlineOptions,
}

// `count` seeds, spread from `start` to `end`.
#[derive(Clone, Copy)]
pub struct Rake {
    pub start: Vec3,
    pub end: Vec3,
    pub count: usize,
}
