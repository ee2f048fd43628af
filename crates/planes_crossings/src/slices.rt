// Points held in three slices, one for each coordinate.
ghost use Rattle.std.specs.Prelude.{◌≡◌, ◌+◌, length};
ghost use Rattle.arith.specs.Lists.{any_of, add_new};
ghost use Rattle.planes_crossings.specs.Crossings.{close};
ghost use Rattle.planes_crossings.specs.Ensures.{point_in, slice_points, SliceLengths, StoreExit, PointList};

use arith::Vec3;
use planes_cut::Cut;

// Point i.
pub fn point_in(x: &[f64], y: &[f64], z: &[f64], i: usize) -> Vec3
    requires { SliceLengths x.now y.now z.now (i + 1) }
    ensures { result ≡ point_in x.now y.now z.now i }
{
    Vec3 {
        x: x[i],
        y: y[i],
        z: z[i],
    }
}

// Puts p as point i.
pub fn store(x: &mut [f64], y: &mut [f64], z: &mut [f64], i: usize, p: Vec3)
    requires { SliceLengths x.old y.old z.old (i + 1) }
    ensures { StoreExit x.old y.old z.old x.new y.new
        z.new i p }
{
    x[i] = p.x;
    y[i] = p.y;
    z[i] = p.z;
}

// q is p, within the tolerance. For most pairs the square of the distance tells: from 2^-38 on
// the distance is over a tolerance below 2^-19, and up to 2^-80 it is within one from 2^-40 on.
fn is_close(cut: Cut, p: Vec3, q: Vec3) -> bool
    ensures { result ≡ close cut p q }
{
    let t = cut.tolerance;
    let s = q.sub(p).norm_squared();
    if s < 3.637978807091713e-12 {
        if s <= 8.271806125530277e-25 && t >= 9.094947017729282e-13 {
            return true;
        }
    } else if t < 1.9073486328125e-6 {
        return false;
    }
    arith_root::sqrt(s) <= t
}

// One of the n points is p, within the tolerance.
fn has(cut: Cut, p: Vec3, x: &[f64], y: &[f64], z: &[f64], n: usize) -> bool
    requires { SliceLengths x.now y.now z.now n }
    ensures { result ≡ any_of (close cut p) (slice_points x.now y.now z.now n) }
{
    (0..n).any(|i| is_close(cut, p, point_in(x, y, z, i)))
}

// Adds p to the n points, unless one of them is p; how many there are then.
pub(crate) fn add_new(
    cut: Cut,
    p: Vec3,
    x: &mut [f64],
    y: &mut [f64],
    z: &mut [f64],
    n: usize,
) -> usize
    requires { SliceLengths x.old y.old z.old (n + 1) }
    ensures { PointList (add_new (close cut) (slice_points x.old y.old z.old n) p)
        x.old y.old z.old x.new y.new z.new n result
        (n + 1) }
{
    if has(cut, p, x, y, z, n) {
        return n;
    }
    store(x, y, z, n, p);
    n + 1
}
