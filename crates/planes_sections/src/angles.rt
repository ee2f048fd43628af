// The angles of points about a centre, and the points at given places.
ghost use Rattle.std.specs.Prelude.{◌≡◌, length, get_or};
ghost use Rattle.arith.specs.Records.{tab};
ghost use Rattle.planes_crossings.specs.Ensures.{point_in, slice_points, SliceLengths, SlicesKept};
ghost use Rattle.planes_sections.specs.Ensures.{angle_on, AnglesOfExit, GatherEntry};

use arith::{Vec2, Vec3};
use arith_angles::{Angle, angles};
use planes_crossings::slices;
use planes_cut::Plane;

// The angle of p about the centre, in the plane's axes.
fn angle_on(plane: Plane, centre: Vec3, p: Vec3) -> Angle
    ensures { result ≡ angle_on plane centre p }
{
    let d = p.sub(centre);
    let x = d.dot(plane.u);
    let y = d.dot(plane.v);
    angles::angle_of(Vec2 { x, y })
}

// The angles of the points, as many as `quarters` has room for.
pub fn angles_of(
    plane: Plane,
    centre: Vec3,
    x: &[f64],
    y: &[f64],
    z: &[f64],
    quarters: &mut [u64],
    slopes: &mut [f64],
)
    requires { SliceLengths x.now y.now z.now (length quarters.old)
        × (length slopes.old ≡ length quarters.old) }
    ensures { AnglesOfExit plane centre (point_in x.now y.now z.now)
        (length quarters.old) quarters.new slopes.new }
{
    for i in 0..quarters.len() {
        let a = angle_on(plane, centre, slices::point_in(x, y, z, i));
        quarters[i] = a.quarter;
        slopes[i] = a.slope;
    }
}

// The points of three slices at the places, in their order.
pub fn gather(
    px: &[f64],
    py: &[f64],
    pz: &[f64],
    places: &[usize],
    x: &mut [f64],
    y: &mut [f64],
    z: &mut [f64],
)
    requires { GatherEntry px.now py.now pz.now places.now
        × SliceLengths x.old y.old z.old (length places.now) }
    ensures { (slice_points x.new y.new z.new (length places.now)
        ≡ tab (λ i. point_in px.now py.now pz.now (get_or places.now i 0))
        (length places.now))
        × SlicesKept x.old y.old z.old x.new y.new z.new
        (length places.now) }
{
    for (i, at) in places.iter().enumerate() {
        slices::store(x, y, z, i, slices::point_in(px, py, pz, *at));
    }
}
