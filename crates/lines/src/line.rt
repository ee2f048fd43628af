// A line from its seed: what is written of it goes to the answer words as far as they fit.
ghost use Rattle.std.specs.Prelude.{◌≡◌, false, ◌≤◌};
ghost use Rattle.arith.specs.Limits.{most_steps};
ghost use Rattle.case_file.specs.Field.{values_of};
ghost use Rattle.lines_velocity.specs.Ensures.{tracer_field, TracerEntry};
ghost use Rattle.lines.specs.Line as Line;
ghost use Rattle.lines.specs.Ensures.{PointsAfterExit, TraceExit};

use crate::{StreamlineDirection, StreamlineSettings};
use arith::Vec3;
use case_file::field;
use lines_step::Step;
use lines_velocity::{Tracer, interpolate};
use lines_words::Pen;

// The sign of a direction.
fn sign(d: StreamlineDirection) -> f64
    ensures { result ≡ Line.sign d }
{
    match d {
        StreamlineDirection::Forward => 1.0,
        StreamlineDirection::Backward => -1.0,
    }
}

// The points after the seed go to the answer behind what the pen wrote; where the pen stands then.
fn points_after(
    case: &[u8],
    words: &[u32],
    floats: &[f64],
    t: Tracer,
    marks: &mut [u8],
    out: &mut [u64],
    start: Pen,
    seed: Vec3,
    settings: StreamlineSettings,
) -> Pen
    requires tracer_entry { TracerEntry case.now words.now floats.now t }
    requires at_bound { (start.at ≤ 16000000) × (start.count ≤ 1) × (settings.options.max_steps ≤ most_steps) }
    ensures { PointsAfterExit (Line.points_after
        (tracer_field t case.now words.now floats.now)
        settings seed) (values_of case.now) marks.old marks.new start
        out.old out.new result }
{
    let direction = settings.direction;
    let options = settings.options;
    let h = options.step_size * sign(direction);
    let most = options.max_steps;
    let mut total = 0.0;
    let mut p = seed;
    let mut pen = start;
    for _ in 0..most {
        let next = lines_step::line_step(case, words, floats, t, marks, options, h, p, total);
        match next {
            Step::Ended => {
                return pen;
            }
            Step::Next(q, segment) => {
                pen = lines_words::put_point(out, pen, q);
                p = q;
                total += segment;
            }
        }
    }
    pen
}

// The zone that a seed locates in; in edition 1 it is 0 for every seed.
fn home_of(case: &[u8], words: &[u32], floats: &[f64], t: Tracer, seed: Vec3) -> u32
    requires { TracerEntry case.now words.now floats.now t }
    ensures { result ≡ Line.home_of
        (tracer_field t case.now words.now floats.now) seed }
{
    if t.counts.edition != 2 {
        return 0;
    }
    let found = interpolate::locate(words, floats, t, seed);
    let cell = found.cell;
    match cell {
        Some(i) => field::zone(case, t.counts, i),
        None => 0,
    }
}

// The words of the line from a seed that locates, with a pen that wrote nothing yet; how many there
// are.
pub fn trace(
    case: &[u8],
    words: &[u32],
    floats: &[f64],
    t: Tracer,
    marks: &mut [u8],
    out: &mut [u64],
    start: Pen,
    seed: Vec3,
    settings: StreamlineSettings,
) -> usize
    requires tracer_entry { TracerEntry case.now words.now floats.now t }
    requires at_bound { (start.at ≤ 16000000) × (start.count ≡ 0) × (settings.options.max_steps ≤ most_steps) }
    requires seed_value { Line.nowhere (tracer_field t case.now words.now floats.now) seed ≡ false }
    ensures { TraceExit (Line.line_answer
        (tracer_field t case.now words.now floats.now)
        start.style settings seed) (values_of case.now) marks.old marks.new
        out.old out.new start.at result × (result ≤ 196612) }
{
    let home = home_of(case, words, floats, t, seed);
    let tracer = lines_velocity::staying(t, home);
    let first = lines_words::put_point(out, start, seed);
    let pen = points_after(
        case, words, floats, tracer, marks, out, first, seed, settings,
    );
    lines_words::close(out, pen)
}
