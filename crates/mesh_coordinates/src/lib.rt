// Refusals 8, 9 and 10: whether a case has cells, and the tests over all its coordinates.
#![tactic(auto)]

ghost use Rattle.std.specs.Prelude.{◌≡◌, List, length};
ghost use Rattle.arith.specs.F64.{finite, within};
ghost use Rattle.arith.specs.Lists.{all_of};
ghost use Rattle.arith.specs.Vec.{each3};
ghost use Rattle.case_definitions.specs.Faces.{Definition};
ghost use Rattle.mesh_area.specs.Layout.{points_in};
ghost use Rattle.mesh_coordinates.specs.Coordinates.{PointBytes, acceptable};

use case_file::Counts;
use refusal::Refusal;

// Every coordinate is finite.
fn all_finite(case: &[u8], points: usize) -> bool
    requires { PointBytes case.now points }
    ensures { result ≡ all_of (each3 finite) (points_in case.now points) }
{
    (0..points).all(|i| mesh_area::point_at(case, points, i).is_finite())
}

// No coordinate is beyond 1,048,576 in size.
fn all_within(case: &[u8], points: usize) -> bool
    requires { PointBytes case.now points }
    ensures { result ≡ all_of (each3 within) (points_in case.now points) }
{
    (0..points).all(|i| mesh_area::point_at(case, points, i).is_within())
}

// Refusals 8, 9 and 10.
pub fn accept(case: &[u8], n: Counts) -> Result<(), Refusal>
    requires { PointBytes case.now n.points }
    ensures { (defs : List Definition) → length defs ≡ n.cells → result ≡ acceptable
        (points_in case.now n.points) defs }
{
    if n.cells == 0 {
        return Err(Refusal::NoCells);
    }
    if !all_finite(case, n.points) {
        return Err(Refusal::CoordinateNotFinite);
    }
    if !all_within(case, n.points) {
        return Err(Refusal::CoordinateTooLarge);
    }
    Ok(())
}
