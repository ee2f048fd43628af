// The velocity at a point, and its direction.
ghost use Rattle.std.specs.Prelude.{◌≡◌, List, ℕ, Ok};
ghost use Rattle.reading.specs.Served.{Served};
ghost use Rattle.case_file.specs.Trailer.{opened};
ghost use Rattle.case_file.specs.Field.{values_of};
ghost use Rattle.mesh_area.specs.Layout.{LentWords, LentFloats, cells_in};
ghost use Rattle.lines_velocity.specs.Velocity as Velocity;
ghost use Rattle.lines_velocity.specs.Ensures.{tracer_field, LocateEntry, TracerEntry};

use crate::{Near, Tracer};
use arith::{Vec3, float};
use case_file::field;
use lines_locate::Located;
use mesh_area::Sizes;

// The squared distance of cell i's centre from p.
fn distance_squared(floats: &[f64], s: Sizes, p: Vec3, i: usize) -> f64
    requires { LentFloats s floats.now }
    ensures { (words : List ℕ) → result ≡ Velocity.distance_squared (cells_in s words floats.now) p i }
{
    p.sub(mesh_area::centre_of(floats, s, i)).norm_squared()
}

// The nearer one of two cells, with its squared distance; of equal distances the first.
fn nearer_of(floats: &[f64], s: Sizes, p: Vec3, best: Near, i: usize) -> Near
    requires { LentFloats s floats.now × ((words : List ℕ) → best.distance_squared ≡
        Velocity.distance_squared (cells_in s words floats.now) p best.cell) }
    ensures { ((words : List ℕ) → result.cell ≡
        Velocity.nearer_of (cells_in s words floats.now) p best.cell i)
        × ((words : List ℕ) → result.distance_squared ≡
        Velocity.distance_squared (cells_in s words floats.now) p result.cell) }
{
    let d = distance_squared(floats, s, p, i);
    if float::nearer(d, best.distance_squared) {
        Near {
            cell: i,
            distance_squared: d,
        }
    } else {
        best
    }
}

// The nearest neighbour of cell i, which has one.
fn nearest(words: &[u32], floats: &[f64], s: Sizes, p: Vec3, i: usize) -> usize
    requires { LentWords s words.now × LentFloats s floats.now }
    ensures { result ≡ Velocity.nearest_of (cells_in s words.now floats.now) p
        (Velocity.neighbours_of (cells_in s words.now floats.now) i) }
{
    let count = mesh_area::neighbour_count(words, s, i);
    let first = mesh_area::neighbour(words, s, i, 0);
    let mut best = Near {
        cell: first,
        distance_squared: distance_squared(floats, s, p, first),
    };
    for k in 1..count {
        best = nearer_of(floats, s, p, best, mesh_area::neighbour(words, s, i, k));
    }
    best.cell
}

// From `base` toward `there`.
fn blended(p: Vec3, centre: Vec3, offset: Vec3, base: Vec3, there: Vec3) -> Vec3
    ensures { result ≡ Velocity.blended p centre offset base there }
{
    let fraction = p.sub(centre).dot(offset) / offset.norm_squared();
    base.add(there.sub(base).scale(float::clamp(fraction)))
}

// The squared length of the offset is finite and above 2^-52.
fn apart(offset: Vec3) -> bool
    ensures { result ≡ Velocity.apart offset }
{
    let d = offset.norm_squared();
    float::is_finite(d) && d > f64::EPSILON
}

// The blend with the values of neighbour k.
fn beside(
    case: &[u8],
    floats: &[f64],
    t: Tracer,
    marks: &mut [u8],
    p: Vec3,
    i: usize,
    base: Vec3,
    k: usize,
) -> Vec3
    requires { (opened case.now ≡ Ok t.counts) × LentFloats t.sizes floats.now }
    ensures { (words : List ℕ) → Served
        (Velocity.beside (tracer_field t case.now words floats.now) p i base k)
        (values_of case.now) marks.old marks.new result }
{
    let centre = mesh_area::centre_of(floats, t.sizes, i);
    let offset = mesh_area::centre_of(floats, t.sizes, k).sub(centre);
    if apart(offset) {
        let v = field::read_cell(case, t.counts, marks, k);
        return blended(p, centre, offset, base, v.velocity);
    }
    base
}

// The velocity of cell i at p, blended toward the nearest neighbour's.
fn toward(
    case: &[u8],
    words: &[u32],
    floats: &[f64],
    t: Tracer,
    marks: &mut [u8],
    p: Vec3,
    i: usize,
    base: Vec3,
) -> Vec3
    requires { TracerEntry case.now words.now floats.now t }
    ensures { Served (Velocity.toward
        (tracer_field t case.now words.now floats.now) p i base)
        (values_of case.now) marks.old marks.new result }
{
    if mesh_area::neighbour_count(words, t.sizes, i) == 0 {
        return base;
    }
    let k = nearest(words, floats, t.sizes, p, i);
    beside(case, floats, t, marks, p, i, base, k)
}

// The velocity at p, which lies in cell i.
fn velocity_in(
    case: &[u8],
    words: &[u32],
    floats: &[f64],
    t: Tracer,
    marks: &mut [u8],
    p: Vec3,
    i: usize,
) -> Vec3
    requires { TracerEntry case.now words.now floats.now t }
    ensures { Served (Velocity.velocity_in
        (tracer_field t case.now words.now floats.now) p i)
        (values_of case.now) marks.old marks.new result }
{
    let v = field::read_cell(case, t.counts, marks, i);
    toward(case, words, floats, t, marks, p, i, v.velocity)
}

// The cell that p locates in, and where p lies to its polygon.
pub fn locate(words: &[u32], floats: &[f64], t: Tracer, p: Vec3) -> Located
    requires { LocateEntry words.now floats.now t }
    ensures by_index { (case : List ℕ) → result ≡ Velocity.located_in
        (tracer_field t case words.now floats.now) p }
    ensures by_index_2 { (case : List ℕ) → result.cell ≡ Velocity.locate_in
        (tracer_field t case words.now floats.now) p }
{
    let search = t.search;
    lines_locate::locate_cell(words, floats, t.sizes, t.grid, search, p)
}

// The velocity at p; nowhere where p locates nowhere.
pub fn velocity_at(
    case: &[u8],
    words: &[u32],
    floats: &[f64],
    t: Tracer,
    marks: &mut [u8],
    p: Vec3,
) -> Option<Vec3>
    requires { TracerEntry case.now words.now floats.now t }
    ensures { Served (Velocity.velocity_at
        (tracer_field t case.now words.now floats.now) p)
        (values_of case.now) marks.old marks.new result }
{
    let i = locate(words, floats, t, p).cell?;
    Some(velocity_in(case, words, floats, t, marks, p, i))
}

// The unit vector of a velocity; none at a speed that is not finite, or not above stagnation_speed.
fn unit(stagnation_speed: f64, v: Vec3) -> Option<Vec3>
    ensures { result ≡ Velocity.unit stagnation_speed v }
{
    let speed = v.norm();
    if float::is_finite(speed) {
        if speed > stagnation_speed {
            return Some(v.div(speed));
        }
    }
    None
}

// The direction of the velocity at p.
pub fn direction_at(
    case: &[u8],
    words: &[u32],
    floats: &[f64],
    t: Tracer,
    marks: &mut [u8],
    p: Vec3,
    stagnation_speed: f64,
) -> Option<Vec3>
    requires { TracerEntry case.now words.now floats.now t }
    ensures { Served (Velocity.direction_at
        (tracer_field t case.now words.now floats.now)
        stagnation_speed p) (values_of case.now) marks.old marks.new result }
{
    let v = velocity_at(case, words, floats, t, marks, p)?;
    unit(stagnation_speed, v)
}
