// The bounds of a 2D mesh's polygons, and the bins that the cells are listed in, in the lent work area.
#![tactic(auto)]

pub mod bins;
pub mod bounds;

use lines_locate::{Bin, Grid};

// Bins from the first to the last, each way.
#[derive(Clone, Copy)]
struct BinSpan {
    first: Bin,
    last: Bin,
}
