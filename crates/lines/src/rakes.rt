// `integrate_rake`: a line from each of the seeds between two points.
ghost use Rattle.std.specs.Prelude.{◌≡◌, false, List, ℕ, ◌≤◌, ◌<◌, ◌*◌, ◌+◌};
ghost use Rattle.arith.specs.Limits.{most_steps};
ghost use Rattle.arith.specs.Lists.{any_of};
ghost use Rattle.case_file.specs.Field.{values_of};
ghost use Rattle.answers.specs.Ensures.{decided, Reply};
ghost use Rattle.lines_velocity.specs.Ensures.{tracer_field, LocateEntry, TracerEntry};
ghost use Rattle.lines.specs.Line.{nowhere};
ghost use Rattle.lines.specs.Rake as Rakes;
ghost use Rattle.lines.specs.Ensures.{TraceExit};

use crate::{Rake, StreamlineSettings, integrate, line};
use arith::Vec3;
use lines_velocity::Tracer;
use lines_words::Style;
use refusal::Refusal;

// Seed i of a rake.
fn seed_at(rake: Rake, i: usize) -> Vec3
    requires { (2 ≤ rake.count) × (rake.count ≤ 64) × (i < rake.count) }
    ensures { result ≡ Rakes.seed_at rake i }
{
    let t = (i as f64) / ((rake.count - 1) as f64);
    rake.start.add(rake.end.sub(rake.start).scale(t))
}

// Some seed locates nowhere.
fn any_nowhere(words: &[u32], floats: &[f64], t: Tracer, rake: Rake) -> bool
    requires locate_entry { LocateEntry words.now floats.now t }
    requires le_count { (2 ≤ rake.count) × (rake.count ≤ 64) }
    ensures { (case : List ℕ) → result ≡ any_of (nowhere
        (tracer_field t case words.now floats.now)) (Rakes.seeds rake) }
{
    for i in 0..rake.count {
        if integrate::is_nowhere(words, floats, t, seed_at(rake, i)) {
            return true;
        }
    }
    false
}

// The words of line after line go to those from 1 on; how many there are.
fn trace_all(
    case: &[u8],
    words: &[u32],
    floats: &[f64],
    t: Tracer,
    marks: &mut [u8],
    out: &mut [u64],
    rake: Rake,
    settings: StreamlineSettings,
) -> usize
    requires tracer_entry { TracerEntry case.now words.now floats.now t }
    requires le_count { (2 ≤ rake.count) × (rake.count ≤ 64) × (settings.options.max_steps ≤ most_steps) }
    requires rake_value { any_of (nowhere (tracer_field t case.now words.now floats.now)) (Rakes.seeds rake) ≡ false }
    ensures { TraceExit (Rakes.lines_words
        (tracer_field t case.now words.now floats.now) settings
        (Rakes.seeds rake)) (values_of case.now) marks.old marks.new
        out.old out.new 1 result × (result ≤ 12583168) }
{
    let mut written = 0;
    for i in 0..rake.count {
        let seed = seed_at(rake, i);
        let pen = lines_words::pen_at(Style::Points, written + 1);
        let more = line::trace(case, words, floats, t, marks, out, pen, seed, settings);
        written += more;
    }
    written
}

// The lines from all seeds: their words go to the answer as far as they fit.
pub fn integrate_rake(
    case: &[u8],
    words: &[u32],
    floats: &[f64],
    t: Tracer,
    marks: &mut [u8],
    out: &mut [u64],
    rake: Rake,
    settings: StreamlineSettings,
) -> Result<usize, Refusal>
    requires tracer_entry { TracerEntry case.now words.now floats.now t }
    requires le_count { (2 ≤ rake.count) × (rake.count ≤ 64) × (settings.options.max_steps ≤ most_steps) }
    ensures { Reply (decided (Rakes.integrate_rake
        (tracer_field t case.now words.now floats.now)
        rake settings)) (values_of case.now) out.old result out.old out.new
        marks.old marks.new }
{
    if integrate::are_accepted(settings.options) {
        if any_nowhere(words, floats, t, rake) {
            return Err(Refusal::SeedNowhere);
        }
        let written = trace_all(case, words, floats, t, marks, out, rake, settings);
        answers::put(out, 0, rake.count as u64);
        let all = written + 1;
        return Ok(all);
    }
    Err(Refusal::WrongOptions)
}
