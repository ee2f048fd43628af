// Sections of a mesh by a plane: the middle, the area and the angles of the points of a piece.
#![tactic(auto)]

use arith::Vec3;

pub mod angles;
pub mod measures;
