// A Runge-Kutta step, a function for each of its four directions, and one step of a line.
#![tactic(auto)]

ghost use Rattle.std.specs.Prelude.{◌≡◌};
ghost use Rattle.reading.specs.Served.{Served};
ghost use Rattle.case_file.specs.Field.{values_of};
ghost use Rattle.lines_velocity.specs.Velocity.{direction_at};
ghost use Rattle.lines_velocity.specs.Ensures.{tracer_field, TracerEntry};
ghost use Rattle.lines_step.specs.RungeKutta as RungeKutta;
ghost use Rattle.lines_step.specs.Step as Steps;

use arith::{Vec3, float};
use case_file::field;
use lines_velocity::Tracer;
use lines_velocity::interpolate::{direction_at, locate};

// The next point with its segment length, or that the line ends.
#[derive(Clone, Copy)]
pub enum Step {
    Next(Vec3, f64),
    Ended,
}

#[derive(Clone, Copy)]
pub struct StreamlineOptions {
    pub step_size: f64,
    pub max_steps: usize,
    pub max_length: f64,
    pub stagnation_speed: f64,
}

// Where a step starts, how long it is (below 0 backward), and the speed that ends a line.
#[derive(Clone, Copy)]
struct StepStart {
    point: Vec3,
    step: f64,
    stagnation_speed: f64,
}

// The four directions, weighed 1, 2, 2, 1.
fn weighed(h: f64, p: Vec3, k1: Vec3, k2: Vec3, k3: Vec3, k4: Vec3) -> Vec3
    ensures { result ≡ RungeKutta.weighed h p k1 k2 k3 k4 }
{
    let sum = k1.add(k2.scale(2.0)).add(k3.scale(2.0)).add(k4);
    p.add(sum.scale(h / 6.0))
}

// From the third direction on.
fn fourth(
    case: &[u8],
    words: &[u32],
    floats: &[f64],
    t: Tracer,
    marks: &mut [u8],
    start: StepStart,
    k1: Vec3,
    k2: Vec3,
    k3: Vec3,
) -> Option<Vec3>
    requires { TracerEntry case.now words.now floats.now t }
    ensures { Served (RungeKutta.fourth
        (direction_at (tracer_field t case.now words.now floats.now)
        start.stagnation_speed)
        start.step start.point k1 k2 k3)
        (values_of case.now) marks.old marks.new result }
{
    let q = start.point.add(k3.scale(start.step));
    let k4 = direction_at(case, words, floats, t, marks, q, start.stagnation_speed)?;
    Some(weighed(start.step, start.point, k1, k2, k3, k4))
}

// From the second direction on.
fn third(
    case: &[u8],
    words: &[u32],
    floats: &[f64],
    t: Tracer,
    marks: &mut [u8],
    start: StepStart,
    k1: Vec3,
    k2: Vec3,
) -> Option<Vec3>
    requires { TracerEntry case.now words.now floats.now t }
    ensures { Served (RungeKutta.third
        (direction_at (tracer_field t case.now words.now floats.now)
        start.stagnation_speed)
        start.step start.point k1 k2)
        (values_of case.now) marks.old marks.new result }
{
    let q = start.point.add(k2.scale(start.step * 0.5));
    let k3 = direction_at(case, words, floats, t, marks, q, start.stagnation_speed)?;
    fourth(case, words, floats, t, marks, start, k1, k2, k3)
}

// From the first direction on.
fn second(
    case: &[u8],
    words: &[u32],
    floats: &[f64],
    t: Tracer,
    marks: &mut [u8],
    start: StepStart,
    k1: Vec3,
) -> Option<Vec3>
    requires { TracerEntry case.now words.now floats.now t }
    ensures { Served (RungeKutta.second
        (direction_at (tracer_field t case.now words.now floats.now)
        start.stagnation_speed)
        start.step start.point k1)
        (values_of case.now) marks.old marks.new result }
{
    let q = start.point.add(k1.scale(start.step * 0.5));
    let k2 = direction_at(case, words, floats, t, marks, q, start.stagnation_speed)?;
    third(case, words, floats, t, marks, start, k1, k2)
}

// The point a step after the start, whether it locates or not.
fn runge_kutta(
    case: &[u8],
    words: &[u32],
    floats: &[f64],
    t: Tracer,
    marks: &mut [u8],
    start: StepStart,
) -> Option<Vec3>
    requires { TracerEntry case.now words.now floats.now t }
    ensures { Served (RungeKutta.runge_kutta
        (direction_at (tracer_field t case.now words.now floats.now)
        start.stagnation_speed)
        start.step start.point) (values_of case.now) marks.old marks.new result }
{
    let p = start.point;
    let k1 = direction_at(case, words, floats, t, marks, p, start.stagnation_speed)?;
    second(case, words, floats, t, marks, start, k1)
}

// The same, where it locates in the line's zone.
fn rk4_step(
    case: &[u8],
    words: &[u32],
    floats: &[f64],
    t: Tracer,
    marks: &mut [u8],
    start: StepStart,
) -> Option<Vec3>
    requires { TracerEntry case.now words.now floats.now t }
    ensures { Served (Steps.rk4_step
        (tracer_field t case.now words.now floats.now)
        start.stagnation_speed start.step start.point)
        (values_of case.now) marks.old marks.new result }
{
    let q = runge_kutta(case, words, floats, t, marks, start)?;
    let i = locate(words, floats, t, q).cell?;
    if field::zone(case, t.counts, i) == t.home {
        Some(q)
    } else {
        None
    }
}

// The next point q with its segment, where the line may go on to it.
fn within_length(longest: f64, p: Vec3, total: f64, q: Vec3) -> Step
    ensures { result ≡ Steps.within_length longest p total (Some q) }
{
    let segment = q.sub(p).norm();
    if float::is_finite(segment) {
        if total + segment > longest {
            return Step::Ended;
        }
        return Step::Next(q, segment);
    }
    Step::Ended
}

// One step of a line that is `total` long at p.
pub fn line_step(
    case: &[u8],
    words: &[u32],
    floats: &[f64],
    t: Tracer,
    marks: &mut [u8],
    options: StreamlineOptions,
    h: f64,
    p: Vec3,
    total: f64,
) -> Step
    requires { TracerEntry case.now words.now floats.now t }
    ensures { Served (Steps.step
        (tracer_field t case.now words.now floats.now) options h p total)
        (values_of case.now) marks.old marks.new result }
{
    let start = StepStart {
        point: p,
        step: h,
        stagnation_speed: options.stagnation_speed,
    };
    let Some(q) = rk4_step(case, words, floats, t, marks, start) else {
        return Step::Ended;
    };
    within_length(options.max_length, p, total, q)
}
