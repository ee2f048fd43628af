// The values that the exported functions take and give.
#![tactic(auto)]

pub mod convert;

// A point or a vector.
#[repr(C)]
#[derive(Clone, Copy)]
pub struct Vector {
    pub x: f64,
    pub y: f64,
    pub z: f64,
}

// The plane of a section, with its axes.
#[repr(C)]
#[derive(Clone, Copy)]
pub struct SectionPlane {
    pub origin: Vector,
    pub u: Vector,
    pub v: Vector,
}

// How a line is followed, and whether a point is looked for in all cells, not in those of its bin
// alone.
#[repr(C)]
#[derive(Clone, Copy)]
pub struct LineOptions {
    pub step_size: f64,
    pub max_steps: usize,
    pub max_length: f64,
    pub stagnation_speed: f64,
    pub all_cells: bool,
}

// What a case file says of itself.
#[repr(C)]
#[derive(Clone, Copy)]
pub struct CaseCounts {
    pub edition: usize,
    pub dimension: usize,
    pub points: usize,
    pub words: usize,
    pub cells: usize,
}

// 0 and a file's length; or the refusal and 0.
#[repr(C)]
#[derive(Clone, Copy)]
pub struct WrittenFile {
    pub refusal: u64,
    pub length: usize,
}
