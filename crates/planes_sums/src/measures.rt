// The measure of a polygon and the value of a sample.
ghost use Rattle.std.specs.Prelude.{◌≡◌, ◌+◌, ◌≤◌, ◌<◌};
ghost use Rattle.arith.specs.F64.{finite};
ghost use Rattle.arith.specs.Lists.{after};
ghost use Rattle.arith.specs.Polygon as Polygon;
ghost use Rattle.planes_crossings.specs.Ensures.{slice_points, point_in, SliceLengths};
ghost use Rattle.planes_sums.specs.Sample as Sample;
ghost use Rattle.planes_sums.specs.Sample.{add_vector, vector_of, measure_of};
ghost use Rattle.planes_sums.specs.Statistics.{scalar_of};
ghost use Rattle.planes_sums.specs.Probe as Probe;

use arith::number::next_of;
use arith::polygon::crosses;
use arith::{Vec2, Vec3, float};
use planes_crossings::slices;
use planes_cut::Plane;
use reading::Values;

// Velocity and pressure are finite.
pub fn has_finite_values(v: Values) -> bool
    ensures { result ≡ Sample.has_finite_values v }
{
    v.velocity.is_finite() && float::is_finite(v.pressure)
}

// A sum of area vectors with that of the triangle o, p, q.
fn add_vector(o: Vec3, p: Vec3, q: Vec3, sum: Vec3) -> Vec3
    ensures { result ≡ add_vector o sum (record { from = p; to = q }) }
{
    sum.add(p.sub(o).cross(q.sub(o)).scale(0.5))
}

// The area vector of the polygon of n points.
fn area_vector(x: &[f64], y: &[f64], z: &[f64], n: usize) -> Vec3
    requires { SliceLengths x.now y.now z.now n × (1 ≤ n) }
    ensures { result ≡ vector_of (slice_points x.now y.now z.now n) }
{
    let o = slices::point_in(x, y, z, 0);
    let mut total = Vec3::new(0.0, 0.0, 0.0);
    for i in 1..n - 1 {
        total = add_vector(
            o,
            slices::point_in(x, y, z, i),
            slices::point_in(x, y, z, i + 1),
            total,
        );
    }
    total
}

// The polygon's area against the plane's normal.
pub(crate) fn measure(normal: Vec3, x: &[f64], y: &[f64], z: &[f64], n: usize) -> f64
    requires { SliceLengths x.now y.now z.now n × (1 ≤ n) }
    ensures { result ≡ measure_of normal (slice_points x.now y.now z.now n) }
{
    float::abs(area_vector(x, y, z, n).dot(normal))
}

// The field's value in a sample.
pub(crate) fn sample_scalar(normal: Vec3, field: u64, v: Values) -> f64
    ensures { result ≡ scalar_of normal field v }
{
    match field {
        1 => v.pressure,
        2 => v.velocity.x,
        3 => v.velocity.y,
        4 => v.velocity.z,
        5 => v.velocity.dot(normal),
        _ => v.velocity.norm(),
    }
}

// A point's place in the plane.
pub fn project(plane: Plane, p: Vec3) -> Vec2
    ensures { result ≡ Probe.project plane p }
{
    let d = p.sub(plane.origin);
    let x = d.dot(plane.u);
    let y = d.dot(plane.v);
    Vec2 { x, y }
}

// The point lies more than 1e-8 off the plane.
pub fn off(plane: Plane, p: Vec3) -> bool
    ensures { result ≡ Probe.off_plane plane p }
{
    let normal = plane.u.cross(plane.v);
    float::abs(p.sub(plane.origin).dot(normal)) > 1e-8
}

// The line from q to the right crosses side i of the n points' polygon.
fn side_crosses(plane: Plane, q: Vec2, x: &[f64], y: &[f64], z: &[f64], n: usize, i: usize) -> bool
    requires { SliceLengths x.now y.now z.now n × (i < n) }
    ensures { result ≡ Polygon.crosses q
        (record {
          from = Probe.project plane (point_in x.now y.now z.now i);
          to =
              Probe.project plane (point_in x.now y.now z.now (after n i));
        }) }
{
    let j = next_of(i, n);
    let a = project(plane, slices::point_in(x, y, z, i));
    let b = project(plane, slices::point_in(x, y, z, j));
    crosses(q, a, b)
}

// q lies in the polygon of n points, by the even-odd rule.
pub(crate) fn covers(plane: Plane, q: Vec2, x: &[f64], y: &[f64], z: &[f64], n: usize) -> bool
    requires { SliceLengths x.now y.now z.now n }
    ensures { result ≡ Probe.covers plane q (slice_points x.now y.now z.now n) }
{
    let mut inside = false;
    for i in 0..n {
        if side_crosses(plane, q, x, y, z, n, i) {
            inside = !inside;
        }
    }
    inside
}
