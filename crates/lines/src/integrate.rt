// `integrate`: the line from a seed, after the refusals 34 and 35.
ghost use Rattle.std.specs.Prelude.{◌≡◌, List, ℕ, ◌≤◌};
ghost use Rattle.arith.specs.Limits.{most_steps};
ghost use Rattle.case_file.specs.Field.{values_of};
ghost use Rattle.answers.specs.Ensures.{decided, Reply};
ghost use Rattle.lines_velocity.specs.Ensures.{tracer_field, LocateEntry, TracerEntry};
ghost use Rattle.lines.specs.Line as Line;

use crate::{StreamlineSettings, line};
use arith::{Vec3, float};
use lines_step::StreamlineOptions;
use lines_velocity::{Tracer, interpolate};
use lines_words::Style;
use refusal::Refusal;

// A finite length above 0.
fn is_length(x: f64) -> bool
    ensures { result ≡ Line.is_length x }
{
    float::is_finite(x) && 0.0 < x
}

// A finite speed, 0 or above.
fn is_speed(x: f64) -> bool
    ensures { result ≡ Line.is_speed x }
{
    float::is_finite(x) && 0.0 <= x
}

// No option is refused.
pub(crate) fn are_accepted(options: StreamlineOptions) -> bool
    ensures { result ≡ Line.are_accepted options }
{
    is_length(options.step_size)
        && 0 < options.max_steps
        && is_length(options.max_length)
        && is_speed(options.stagnation_speed)
}

// A point locates nowhere.
pub(crate) fn is_nowhere(words: &[u32], floats: &[f64], t: Tracer, p: Vec3) -> bool
    requires { LocateEntry words.now floats.now t }
    ensures { (case : List ℕ) → result ≡ Line.nowhere
        (tracer_field t case words.now floats.now) p }
{
    let found = interpolate::locate(words, floats, t, p);
    let cell = found.cell;
    match cell {
        Some(_) => false,
        None => true,
    }
}

// The line from a seed, in a style: its words go to the answer as far as they fit.
pub fn integrate(
    case: &[u8],
    words: &[u32],
    floats: &[f64],
    t: Tracer,
    marks: &mut [u8],
    out: &mut [u64],
    seed: Vec3,
    settings: StreamlineSettings,
    style: Style,
) -> Result<usize, Refusal>
    requires tracer_entry { TracerEntry case.now words.now floats.now t }
    requires max_steps_bound { settings.options.max_steps ≤ most_steps }
    ensures { Reply (decided (Line.integrate
        (tracer_field t case.now words.now floats.now) seed settings style))
        (values_of case.now) out.old result out.old out.new
        marks.old marks.new }
{
    if are_accepted(settings.options) {
        if is_nowhere(words, floats, t, seed) {
            return Err(Refusal::SeedNowhere);
        }
        let pen = lines_words::pen_at(style, 0);
        let count = line::trace(case, words, floats, t, marks, out, pen, seed, settings);
        return Ok(count);
    }
    Err(Refusal::WrongOptions)
}
