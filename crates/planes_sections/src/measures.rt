// The centre and the area of points that stand in three slices.
ghost use Rattle.std.specs.Prelude.{◌≡◌, ◌≤◌};
ghost use Rattle.arith.specs.Limits.{2^32};
ghost use Rattle.arith.specs.Lists.{fold};
ghost use Rattle.arith.specs.Vec.{origin, plus};
ghost use Rattle.planes_crossings.specs.Ensures.{slice_points, SliceLengths};
ghost use Rattle.planes_sections.specs.Intersect.{section_centre, add_area, area_of};

use arith::Vec3;
use planes_crossings::slices;

// The sum of the n points.
fn sum(x: &[f64], y: &[f64], z: &[f64], n: usize) -> Vec3
    requires { SliceLengths x.now y.now z.now n }
    ensures { result ≡ fold plus origin (slice_points x.now y.now z.now n) }
{
    let mut total = Vec3::new(0.0, 0.0, 0.0);
    for i in 0..n {
        total = total.add(slices::point_in(x, y, z, i));
    }
    total
}

// The sum, times one over the number.
pub fn section_centre(x: &[f64], y: &[f64], z: &[f64], n: usize) -> Vec3
    requires { SliceLengths x.now y.now z.now n × (n ≤ 2^32) }
    ensures { result ≡ section_centre (slice_points x.now y.now z.now n) }
{
    sum(x, y, z, n).scale(1.0 / (n as f64))
}

// A sum of areas with that of the triangle o, p, q.
fn add_area(o: Vec3, p: Vec3, q: Vec3, area: f64) -> f64
    ensures { result ≡ add_area o area (record { from = p; to = q }) }
{
    area + p.sub(o).cross(q.sub(o)).norm() * 0.5
}

// The area of the polygon of n points.
pub fn area(x: &[f64], y: &[f64], z: &[f64], n: usize) -> f64
    requires { SliceLengths x.now y.now z.now n × (1 ≤ n) }
    ensures { result ≡ area_of (slice_points x.now y.now z.now n) }
{
    let o = slices::point_in(x, y, z, 0);
    let mut total = 0.0;
    for i in 1..n - 1 {
        total = add_area(
            o,
            slices::point_in(x, y, z, i),
            slices::point_in(x, y, z, i + 1),
            total,
        );
    }
    total
}
