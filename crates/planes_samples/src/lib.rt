// The samples of a plane's section: all cells are read one after the other, no list of them is held,
// and of each sample what its answer keeps is kept.
#![tactic(auto)]

use planes_sums::Accumulator;

pub mod walk;
