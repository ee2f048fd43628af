// The velocity at a point of a 2D case, and its direction.
#![tactic(auto)]

pub mod interpolate;

ghost use Rattle.std.specs.Prelude.{◌≡◌};
ghost use Rattle.lines_velocity.specs.Ensures.{tracer_searching, tracer_staying};

use arith::Vec3;
use case_file::Counts;
use lines_locate::{Grid, Search};
use mesh_area::Sizes;

// What a 2D case is traced with: its counts, the sizes of its work area, the grid of its bins, which
// cells a point is looked for in, and the zone that a line stays in.
#[derive(Clone, Copy)]
pub struct Tracer {
    pub counts: Counts,
    pub sizes: Sizes,
    pub grid: Grid,
    pub search: Search,
    pub home: u32,
}

// A cell, and the squared distance of its centre from a point.
#[derive(Clone, Copy)]
struct Near {
    cell: usize,
    distance_squared: f64,
}

// The same tracer under another search.
pub fn searching(t: Tracer, search: Search) -> Tracer
    ensures { result ≡ tracer_searching search t }
{
    Tracer { search, ..t }
}

// The same tracer for a line that stays in another zone.
pub fn staying(t: Tracer, home: u32) -> Tracer
    ensures { result ≡ tracer_staying home t }
{
    Tracer { home, ..t }
}
