// The points of a piece in angle order about its centre.
ghost use Rattle.std.specs.Prelude.{◌≡◌, ◌≤◌, length};
ghost use Rattle.arith.specs.Lists as Lists;
ghost use Rattle.planes_crossings.specs.Ensures.{slice_points, SliceLengths, SlicesKept};
ghost use Rattle.planes_sections.specs.Intersect.{earlier_on};

use arith::Vec3;
use arith_angles::sort;
use planes_cut::Plane;
use planes_sections::angles;

// The points of three slices, sorted by angle into three others, by means of three more.
fn arrange_by(
    plane: Plane,
    centre: Vec3,
    px: &[f64],
    py: &[f64],
    pz: &[f64],
    x: &mut [f64],
    y: &mut [f64],
    z: &mut [f64],
    quarters: &mut [u64],
    slopes: &mut [f64],
    places: &mut [usize],
)
    requires slice_lengths { SliceLengths px.now py.now pz.now (length quarters.old)
        × SliceLengths x.old y.old z.old (length quarters.old) }
    requires slopes_len { (length slopes.old ≡ length quarters.old) × (length places.old ≡ length quarters.old) }
    ensures { (slice_points x.new y.new z.new (length quarters.old)
        ≡ Lists.sort (earlier_on plane centre)
        (slice_points px.now py.now pz.now (length quarters.old)))
        × SlicesKept x.old y.old z.old x.new y.new z.new
        (length quarters.old) }
{
    angles::angles_of(plane, centre, px, py, pz, quarters, slopes);
    sort::sort_by_angle(quarters, slopes, places);
    angles::gather(px, py, pz, places, x, y, z);
}

// The first n points of three slices, sorted by angle into three others, by means of three more.
fn arrange_first(
    plane: Plane,
    centre: Vec3,
    px: &[f64],
    py: &[f64],
    pz: &[f64],
    n: usize,
    x: &mut [f64],
    y: &mut [f64],
    z: &mut [f64],
    quarters: &mut [u64],
    slopes: &mut [f64],
    places: &mut [usize],
)
    requires slice_lengths { SliceLengths px.now py.now pz.now n × SliceLengths x.old y.old z.old n }
    requires n_in_bounds { (n ≤ length quarters.old) × (n ≤ length slopes.old) × (n ≤ length places.old) }
    ensures { (slice_points x.new y.new z.new n ≡ Lists.sort
        (earlier_on plane centre) (slice_points px.now py.now pz.now n))
        × SlicesKept x.old y.old z.old x.new y.new z.new
        n }
{
    arrange_by(
        plane,
        centre,
        px,
        py,
        pz,
        x,
        y,
        z,
        &mut quarters[..n],
        &mut slopes[..n],
        &mut places[..n],
    );
}

// The n points of three slices, sorted by angle into three others.
pub(crate) fn arrange(
    plane: Plane,
    centre: Vec3,
    px: &[f64],
    py: &[f64],
    pz: &[f64],
    n: usize,
    x: &mut [f64],
    y: &mut [f64],
    z: &mut [f64],
)
    requires { SliceLengths px.now py.now pz.now n × SliceLengths x.old y.old z.old n × (n ≤ 192) }
    ensures { (slice_points x.new y.new z.new n ≡ Lists.sort
        (earlier_on plane centre) (slice_points px.now py.now pz.now n))
        × SlicesKept x.old y.old z.old x.new y.new z.new
        n }
{
    let mut quarters = [0u64; 192];
    let mut slopes = [0.0; 192];
    let mut places = [0usize; 192];
    arrange_first(
        plane,
        centre,
        px,
        py,
        pz,
        n,
        x,
        y,
        z,
        &mut quarters,
        &mut slopes,
        &mut places,
    );
}
