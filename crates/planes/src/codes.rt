// The answers of codes 5 to 8.
ghost use Rattle.std.specs.Prelude.{◌≡◌, ◌&&◌, List, ◌<◌, Float};
ghost use Rattle.std.proofs.lemmas.List.Edits.{sets};
ghost use Rattle.arith.specs.F64.{finite};
ghost use Rattle.case_file.specs.Field.{values_of};
ghost use Rattle.mesh_area.specs.Layout.{points_in, mesh_in};
ghost use Rattle.planes_sections.specs.Intersect.{intersect};
ghost use Rattle.planes_sums.specs.Statistics as Statistics;
ghost use Rattle.planes_sums.specs.Integrals as Integrals;
ghost use Rattle.planes_sums.specs.Probe as Probe;
ghost use Rattle.planes.specs.Answers.{probe_words, section_of, statistics_of, integrals_of, probe_of};
ghost use Rattle.planes_sums.specs.Kept.{sums_of, integral_of};
ghost use Rattle.planes_samples.specs.Ensures.{accumulated_of, SampleEntry};
ghost use Rattle.answers.specs.Ensures.{Reply};
ghost use Rattle.planes.specs.Ensures.{statistics_end, integrals_end, missing, left_by, EndExit, FinishExit};

use arith::{Vec2, Vec3, bytes, float};
use case_file::Counts;
use mesh_area::Sizes;
use planes_cut::Plane;
use planes_samples::walk;
use planes_sums::{Accumulator, Integral, Sums, measures};
use reading::Values;
use refusal::Refusal;

// All four are finite.
fn are_finite(a: f64, b: f64, c: f64, d: f64) -> bool
    ensures { result ≡ (finite a && (finite b && (finite c && finite d))) }
{
    float::is_finite(a) && float::is_finite(b) && float::is_finite(c) && float::is_finite(d)
}

// All integrals are finite.
fn finite_integral(t: Integral) -> bool
    ensures { result ≡ Integrals.finite_integral t }
{
    are_finite(t.area, t.pressure, t.speed, t.flux)
}

// There is no area, or an integral is not finite.
fn lacks_integrals(t: Integral) -> bool
    ensures { result ≡ Integrals.no_integrals t }
{
    t.area <= 0.0 || !finite_integral(t)
}

// Area, means and flux.
fn put_integrals(answers: &mut [u64], t: Integral)
    ensures { answers.new ≡ sets answers.old 0 (Integrals.integral_words t) }
{
    let means = Vec3 {
        x: t.area,
        y: t.pressure / t.area,
        z: t.speed / t.area,
    };
    answers::put_vec(answers, 0, means);
    answers::put(answers, 3, bytes::bits_of(t.flux));
}

// The answer by the integrals.
fn end_integrals(r: Option<Integral>, answers: &mut [u64]) -> Result<usize, Refusal>
    ensures { EndExit (integrals_end (integral_of r)) result answers.old answers.new }
{
    let t = r.ok_or(Refusal::InvalidSample)?;
    if lacks_integrals(t) {
        return Err(Refusal::NoIntegrals);
    }
    put_integrals(answers, t);
    Ok(4)
}

// All sums are finite.
fn finite_sums(t: Sums) -> bool
    ensures { result ≡ Statistics.finite_sums t }
{
    float::is_finite(t.area)
        && float::is_finite(t.integral)
        && are_finite(t.flux, t.positive, t.negative, t.weighted)
}

// There is no area, or a sum is not finite.
fn is_empty(t: Sums) -> bool
    ensures { result ≡ Statistics.empty t }
{
    t.area <= 0.0 || !finite_sums(t)
}

// Weighted value and reverse fraction.
fn put_fractions(answers: &mut [u64], t: Sums, absolute: f64)
    ensures { answers.new ≡ sets answers.old 10 (Statistics.fraction_words t absolute) }
{
    if absolute > 0.0 {
        answers::put(answers, 10, 1);
        answers::put(answers, 11, bytes::bits_of(t.weighted / absolute));
        answers::put(answers, 12, bytes::bits_of(-t.negative / absolute));
    } else {
        answers::put(answers, 10, 0);
        answers::put(answers, 11, 0);
        answers::put(answers, 12, 0);
    }
}

// The statistics.
fn put_statistics(answers: &mut [u64], t: Sums)
    ensures { answers.new ≡ sets answers.old 0 (Statistics.statistics_words t) }
{
    let absolute = t.positive - t.negative;
    let range = Vec3 {
        x: t.area,
        y: t.least,
        z: t.most,
    };
    let means = Vec3 {
        x: t.integral / t.area,
        y: t.integral,
        z: t.flux,
    };
    let fluxes = Vec3 {
        x: t.positive,
        y: t.negative,
        z: absolute,
    };
    answers::put(answers, 0, t.used);
    answers::put_vec(answers, 1, range);
    answers::put_vec(answers, 4, means);
    answers::put_vec(answers, 7, fluxes);
    put_fractions(answers, t, absolute);
}

// The answer by the sums.
fn end_statistics(r: Option<Sums>, answers: &mut [u64]) -> Result<usize, Refusal>
    ensures { EndExit (statistics_end (sums_of r)) result answers.old answers.new }
{
    let t = r.ok_or(Refusal::FluxNotFinite)?;
    if is_empty(t) {
        return Err(Refusal::NoStatistics);
    }
    put_statistics(answers, t);
    Ok(13)
}

// The cell with its values, or none.
fn put_probed(r: Option<(usize, Values)>, answers: &mut [u64])
    ensures { answers.new ≡ sets answers.old 0 (probe_words r) }
{
    match r {
        Some((i, v)) => {
            answers::put(answers, 0, i as u64);
            answers::put_values(answers, 1, v);
        }
        None => {
            let nothing = Vec3 {
                x: 0.0,
                y: 0.0,
                z: 0.0,
            };
            answers::put(answers, 0, u64::MAX);
            answers::put_values(
                answers,
                1,
                Values {
                    velocity: nothing,
                    pressure: 0.0,
                },
            );
        }
    }
}

// The answer by what was kept.
fn finish(r: Option<Accumulator>, answers: &mut [u64]) -> Result<usize, Refusal>
    ensures { FinishExit (accumulated_of r) result answers.old answers.new }
{
    let t = r.ok_or(Refusal::SampleNotFinite)?;
    match t {
        Accumulator::Section(polygons, at) => {
            answers::put(answers, 0, polygons as u64);
            Ok(at)
        }
        Accumulator::Statistics(_, sums) => end_statistics(sums, answers),
        Accumulator::Integrals(sums) => end_integrals(sums, answers),
        Accumulator::Probe(_, found) => {
            put_probed(found, answers);
            Ok(5)
        }
    }
}

// The polygons of the section with their samples. They are written as they are read, from the second
// word on.
pub fn section(
    case: &[u8],
    n: Counts,
    words: &[u32],
    s: Sizes,
    plane: Plane,
    answers: &mut [u64],
    marks: &mut [u8],
) -> Result<usize, Refusal>
    requires { SampleEntry case.now n s words.now marks.old }
    ensures { (floats : List Float) → Reply
        (section_of (mesh_in (points_in case.now n.points) s words.now floats) plane)
        (values_of case.now) (left_by (values_of case.now)
        (intersect (mesh_in (points_in case.now n.points) s words.now floats) plane)
        answers.old) result answers.old answers.new marks.old
        marks.new }
{
    let t = Accumulator::Section(0, 1);
    let r = walk::sample_all(case, n, words, s, plane, t, answers, marks);
    finish(r, answers)
}

// Area, mean pressure, mean speed and flux of the section.
pub fn integrals(
    case: &[u8],
    n: Counts,
    words: &[u32],
    s: Sizes,
    plane: Plane,
    answers: &mut [u64],
    marks: &mut [u8],
) -> Result<usize, Refusal>
    requires { SampleEntry case.now n s words.now marks.old }
    ensures { (floats : List Float) → Reply
        (integrals_of (mesh_in (points_in case.now n.points) s words.now floats) plane)
        (values_of case.now) answers.old result answers.old answers.new
        marks.old marks.new }
{
    let none = Integral {
        area: 0.0,
        pressure: 0.0,
        speed: 0.0,
        flux: 0.0,
    };
    let t = Accumulator::Integrals(Some(none));
    let r = walk::sample_all(case, n, words, s, plane, t, answers, marks);
    finish(r, answers)
}

// What was kept; nothing was found where the point is off the plane.
fn unless_off(away: bool, q: Vec2, r: Option<Accumulator>) -> Option<Accumulator>
    ensures { accumulated_of result ≡ missing away q (accumulated_of r) }
{
    if away {
        r?;
        Some(Accumulator::Probe(q, None))
    } else {
        r
    }
}

// The cell of the section under a point, with its values.
pub fn probe(
    case: &[u8],
    n: Counts,
    words: &[u32],
    s: Sizes,
    plane: Plane,
    p: Vec3,
    answers: &mut [u64],
    marks: &mut [u8],
) -> Result<usize, Refusal>
    requires { SampleEntry case.now n s words.now marks.old }
    ensures { (floats : List Float) → Reply
        (probe_of (mesh_in (points_in case.now n.points) s words.now floats) plane p)
        (values_of case.now) answers.old result answers.old answers.new
        marks.old marks.new }
{
    let away = measures::off(plane, p);
    let q = measures::project(plane, p);
    let t = Accumulator::Probe(q, None);
    let r = walk::sample_all(case, n, words, s, plane, t, answers, marks);
    finish(unless_off(away, q, r), answers)
}

// The statistics of a field over the section.
pub fn statistics(
    case: &[u8],
    n: Counts,
    words: &[u32],
    s: Sizes,
    plane: Plane,
    field: u64,
    answers: &mut [u64],
    marks: &mut [u8],
) -> Result<usize, Refusal>
    requires { SampleEntry case.now n s words.now marks.old }
    ensures { (floats : List Float) → Reply
        (statistics_of (mesh_in (points_in case.now n.points) s words.now floats) plane field)
        (values_of case.now) answers.old result answers.old answers.new
        marks.old marks.new }
{
    let none = Sums {
        used: 0,
        area: 0.0,
        least: f64::INFINITY,
        most: f64::NEG_INFINITY,
        integral: 0.0,
        flux: 0.0,
        positive: 0.0,
        negative: 0.0,
        weighted: 0.0,
    };
    let t = Accumulator::Statistics(field, Some(none));
    let r = walk::sample_all(case, n, words, s, plane, t, answers, marks);
    finish(r, answers)
}
