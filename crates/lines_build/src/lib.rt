// The polygons of a 2D mesh's cells, with their limits, in the lent work area, and then the bins:
// `StreamlineField::from_dataset`.
#![tactic(auto)]

pub mod build;
mod vertices;
