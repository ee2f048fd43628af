// The piece that a plane cuts from one cell.
#![tactic(auto)]

mod arrange;
pub mod pieces;
