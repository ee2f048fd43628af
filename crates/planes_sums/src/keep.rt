// What each answer keeps of the samples.
ghost use Rattle.std.specs.Prelude.{◌≡◌, ℕ, ◌≤◌, ◌<◌};
ghost use Rattle.arith.specs.Limits.{2^32};
ghost use Rattle.planes_sums.specs.Statistics as Statistics;
ghost use Rattle.planes_sums.specs.Integrals as Integrals;
ghost use Rattle.planes_sums.specs.Kept.{sample_sums_of, sums_of, integral_of, summing_of, weighing_of, add_summed, add_weighed, add_probed, sample_in, used_of, size_of, AddExit};
ghost use Rattle.planes_crossings.specs.Ensures.{SliceLengths};

use crate::{Accumulator, Integral, Sums, measures, write};
use arith::{Vec2, Vec3, float};
use planes_cut::Cut;
use reading::Values;

// A sample with area and a finite value counts.
fn counted(measure: f64, value: f64) -> bool
    ensures { result ≡ Statistics.counted measure value }
{
    float::is_finite(measure) && measure > 0.0 && float::is_finite(value)
}

// The sums with a sample of this measure, value and flux.
fn including(t: Sums, measure: f64, value: f64, flux: f64) -> Sums
    requires { t.used < 2^32 }
    ensures { result ≡ Statistics.including t measure value flux }
{
    let least = float::min(t.least, value);
    let most = float::max(t.most, value);
    let positive = float::max(flux, 0.0);
    let negative = float::min(flux, 0.0);
    let size = float::abs(flux);
    Sums {
        used: t.used + 1,
        area: t.area + measure,
        least,
        most,
        integral: t.integral + value * measure,
        flux: t.flux + flux,
        positive: t.positive + positive,
        negative: t.negative + negative,
        weighted: t.weighted + value * size,
    }
}

// The sums with a sample of this measure and these values.
fn add_sample(normal: Vec3, field: u64, t: Sums, measure: f64, v: Values) -> Option<Sums>
    requires { t.used < 2^32 }
    ensures { sums_of result ≡ summing_of normal field t measure v }
{
    let value = measures::sample_scalar(normal, field, v);
    if counted(measure, value) {
        let flux = v.velocity.dot(normal) * measure;
        if float::is_finite(flux) {
            Some(including(t, measure, value, flux))
        } else {
            None
        }
    } else {
        Some(t)
    }
}

// Area, speed and pressure are finite.
fn is_valid(a: f64, v: Values) -> bool
    ensures { result ≡ Integrals.is_valid a v }
{
    float::is_finite(a) && float::is_finite(v.velocity.norm()) && float::is_finite(v.pressure)
}

// The integrals with a sample of this area.
fn weighing(normal: Vec3, t: Integral, a: f64, v: Values) -> Integral
    ensures { result ≡ Integrals.weighing normal t a v }
{
    let speed = v.velocity.norm();
    let through = v.velocity.dot(normal);
    Integral {
        area: t.area + a,
        pressure: t.pressure + a * v.pressure,
        speed: t.speed + a * speed,
        flux: t.flux + a * through,
    }
}

// The same, or that the sample is invalid.
fn add_integral(normal: Vec3, t: Integral, a: f64, v: Values) -> Option<Integral>
    ensures { integral_of result ≡ weighing_of normal t a v }
{
    if is_valid(a, v) {
        Some(weighing(normal, t, a, v))
    } else {
        None
    }
}

// The sums with a sample, whose polygon stands in three slices.
fn add_summed(
    normal: Vec3,
    field: u64,
    t: Option<Sums>,
    n: usize,
    v: Values,
    x: &[f64],
    y: &[f64],
    z: &[f64],
) -> Option<Sums>
    requires { SliceLengths x.now y.now z.now n × (1 ≤ n) × (used_of (sums_of t) < 2^32) }
    ensures { (cell : ℕ) (centre : Vec3) → sums_of result ≡ add_summed normal field (sums_of t)
        (sample_in cell centre n v x.now y.now z.now) }
{
    let sums = t?;
    let area = measures::measure(normal, x, y, z, n);
    add_sample(normal, field, sums, area, v)
}

// The integrals with it.
fn add_weighed(
    normal: Vec3,
    t: Option<Integral>,
    n: usize,
    v: Values,
    x: &[f64],
    y: &[f64],
    z: &[f64],
) -> Option<Integral>
    requires { SliceLengths x.now y.now z.now n × (1 ≤ n) }
    ensures { (cell : ℕ) (centre : Vec3) → integral_of result ≡ add_weighed normal (integral_of t)
        (sample_in cell centre n v x.now y.now z.now) }
{
    let sums = t?;
    let area = measures::measure(normal, x, y, z, n);
    add_integral(normal, sums, area, v)
}

// The first sample over q, with it.
fn add_probed(
    cut: Cut,
    q: Vec2,
    t: Option<(usize, Values)>,
    cell: usize,
    n: usize,
    v: Values,
    x: &[f64],
    y: &[f64],
    z: &[f64],
) -> Option<(usize, Values)>
    requires { SliceLengths x.now y.now z.now n }
    ensures { (centre : Vec3) → result ≡ add_probed cut q t
        (sample_in cell centre n v x.now y.now z.now) }
{
    match t {
        Some((i, w)) => Some((i, w)),
        None => {
            if measures::covers(cut.plane, q, x, y, z, n) {
                Some((cell, v))
            } else {
                None
            }
        }
    }
}

// What is kept with a sample, whose words are written where the answer has them.
pub fn add(
    cut: Cut,
    t: Accumulator,
    cell: usize,
    centre: Vec3,
    n: usize,
    v: Values,
    x: &[f64],
    y: &[f64],
    z: &[f64],
    answers: &mut [u64],
) -> Accumulator
    requires { SliceLengths x.now y.now z.now n × (1 ≤ n) × (n ≤ 192)
        × (size_of (sample_sums_of t) < 1073741824) }
    ensures { AddExit cut t (sample_in cell centre n v x.now y.now z.now) result
        answers.old answers.new }
{
    match t {
        Accumulator::Section(polygons, at) => {
            write::put_sample(answers, at, cell, centre, n, v, x, y, z);
            Accumulator::Section(polygons + 1, at + 9 + 3 * n)
        }
        Accumulator::Statistics(field, r) => {
            Accumulator::Statistics(field, add_summed(cut.normal, field, r, n, v, x, y, z))
        }
        Accumulator::Integrals(r) => Accumulator::Integrals(add_weighed(
            cut.normal, r, n, v, x, y, z,
        )),
        Accumulator::Probe(q, r) => Accumulator::Probe(
            q,
            add_probed(cut, q, r, cell, n, v, x, y, z),
        ),
    }
}
