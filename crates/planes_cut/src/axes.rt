// Which planes are accepted, and the tolerance of their sections.
ghost use Rattle.std.specs.Prelude.{◌≡◌, ◌*◌, ◌≤◌, length};
ghost use Rattle.arith.specs.Limits.{most_points};
ghost use Rattle.arith.specs.F64.{0·0};
ghost use Rattle.arith.specs.Lists.{fold};
ghost use Rattle.arith.specs.Vec.{norm};
ghost use Rattle.mesh_area.specs.Layout.{points_in};
ghost use Rattle.planes_cut.specs.Plane as Axes;
ghost use Rattle.planes_cut.specs.Cut as Cuts;

use crate::{Cut, Plane, Reach};
use arith::{Vec3, float};
use refusal::Refusal;

// The origin and both axes are finite.
fn finite_axes(plane: Plane) -> bool
    ensures { result ≡ Axes.finite_axes plane }
{
    plane.origin.is_finite() && plane.u.is_finite() && plane.v.is_finite()
}

// Not of length 1, within 1e-7.
fn not_unit(a: Vec3) -> bool
    ensures { result ≡ Axes.not_unit a }
{
    float::abs(a.norm() - 1.0) > 1e-7
}

// Not at a right angle, within 1e-7.
fn not_orthogonal(u: Vec3, v: Vec3) -> bool
    ensures { result ≡ Axes.not_orthogonal u v }
{
    float::abs(u.dot(v)) > 1e-7
}

// The origin or the axes are not accepted.
fn invalid(plane: Plane) -> bool
    ensures { result ≡ Axes.invalid plane }
{
    !finite_axes(plane)
        || not_unit(plane.u)
        || not_unit(plane.v)
        || not_orthogonal(plane.u, plane.v)
}

// Refusals 36 and 37 of a plane.
pub fn validate(plane: Plane) -> Result<(), Refusal>
    ensures { result ≡ Axes.validated plane }
{
    if invalid(plane) {
        return Err(Refusal::WrongPlane);
    }
    if !plane.origin.is_within() {
        return Err(Refusal::OriginTooLarge);
    }
    Ok(())
}

// How far the points reach, from the origin of the plane and from (0, 0, 0): the roots of the
// largest squares.
fn reach_of(case: &[u8], points: usize, origin: Vec3) -> Reach
    requires { (points ≤ most_points) × (24 * points ≤ length case.now) }
    ensures { (result.span ≡ fold (Cuts.widest origin) 0·0 (points_in case.now points))
        × (result.location ≡ fold Cuts.farthest (norm origin) (points_in case.now points)) }
{
    let mut span = 0.0;
    let mut location = origin.norm_squared();
    for i in 0..points {
        let p = mesh_area::point_at(case, points, i);
        span = float::max(span, p.sub(origin).norm_squared());
        location = float::max(location, p.norm_squared());
    }
    Reach {
        span: arith_root::sqrt(span),
        location: arith_root::sqrt(location),
    }
}

// The tolerance, by the two distances.
fn eps_of(span: f64, location: f64) -> f64
    ensures { result ≡ Cuts.eps_of span location }
{
    let least = 2.220446049250313e-16 * float::max(location, 1.0) * 32.0;
    float::max(span * 1e-10, least)
}

// The plane with its normal and its tolerance.
pub fn cut_of(case: &[u8], points: usize, plane: Plane) -> Cut
    requires { (points ≤ most_points) × (24 * points ≤ length case.now) }
    ensures { result ≡ Cuts.cut_of (points_in case.now points) plane }
{
    let reach = reach_of(case, points, plane.origin);
    let tolerance = eps_of(reach.span, reach.location);
    let normal = plane.u.cross(plane.v);
    Cut {
        plane,
        normal,
        tolerance,
    }
}
