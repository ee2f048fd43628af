// A plane that cuts a mesh: what `FlowPlaneMonitor::validate` accepts, the tolerance of its sections,
// and what the points of a cell show of it at a glance.
#![tactic(auto)]

use arith::Vec3;

pub mod axes;
pub mod heights;

// A plane by its origin and two axes.
#[derive(Clone, Copy)]
pub struct Plane {
    pub origin: Vec3,
    pub u: Vec3,
    pub v: Vec3,
}

// A plane with its normal and the tolerance of its sections.
#[derive(Clone, Copy)]
pub struct Cut {
    pub plane: Plane,
    pub normal: Vec3,
    pub tolerance: f64,
}

// The largest distance of a point from the plane's origin, and from (0, 0, 0).
#[derive(Clone, Copy)]
struct Reach {
    span: f64,
    location: f64,
}

// Whether some point lies in the plane, below it, above it.
#[derive(Clone, Copy)]
pub struct Signs {
    pub near: bool,
    pub below: bool,
    pub above: bool,
}
