// The arithmetic that mesh, lines and planes are written in: numbers in bytes, counts, Rust's methods
// of f64, vectors, and the sides that a line crosses.
#![tactic(auto)]

pub mod bytes;
pub mod float;
pub mod number;
pub mod polygon;
pub mod slices;
mod vector;

// A point or a vector of the room.
#[derive(Clone, Copy)]
pub struct Vec3 {
    pub x: f64,
    pub y: f64,
    pub z: f64,
}

// A point or a vector of a plane.
#[derive(Clone, Copy)]
pub struct Vec2 {
    pub x: f64,
    pub y: f64,
}
