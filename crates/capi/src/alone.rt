// Each request alone: 0 or the refusal. Where `all_cells` holds, a point is looked for in all cells
// (codes 9 to 12 and 14), and else in those of its bin (codes 1 to 4 and 13).
ghost use Rattle.std.specs.Prelude.{length};
ghost use Rattle.job_requests.specs.Encode.{bytes_of};
ghost use Rattle.job_promise.specs.Promise.{JobPromise};
ghost use Rattle.job_encoding.specs.Single.{locate_words, velocity_words, streamline_words, sheet_words, rake_words, section_words, statistics_words, integrals_words, probe_words};
ghost use Rattle.capi_values.specs.Convert.{vector_of, plane_of, settings_of, rake_of, search_of};

use capi_values::{LineOptions, SectionPlane, Vector, convert};
use job_promise::number_of;

// The cell at a point.
#[unsafe(no_mangle)]
pub extern "C" fn hookyellow_locate(
    case: &[u8],
    p: Vector,
    all_cells: bool,
    words: &mut [u32],
    floats: &mut [f64],
    marks: &mut [u8],
    answers: &mut [u64],
) -> u64
    ensures { JobPromise case.now
        (bytes_of (locate_words (vector_of p) (search_of all_cells)))
        (length words.old) (length floats.old) answers.old marks.old
        (record { result = result; answers = answers.new; marks = marks.new }) }
{
    number_of(job_single::locate(
        case,
        convert::vector(p),
        convert::search(all_cells),
        words,
        floats,
        marks,
        answers,
    ))
}

// The velocity at a point.
#[unsafe(no_mangle)]
pub extern "C" fn hookyellow_velocity(
    case: &[u8],
    p: Vector,
    all_cells: bool,
    words: &mut [u32],
    floats: &mut [f64],
    marks: &mut [u8],
    answers: &mut [u64],
) -> u64
    ensures { JobPromise case.now
        (bytes_of (velocity_words (vector_of p) (search_of all_cells)))
        (length words.old) (length floats.old) answers.old marks.old
        (record { result = result; answers = answers.new; marks = marks.new }) }
{
    number_of(job_single::velocity(
        case,
        convert::vector(p),
        convert::search(all_cells),
        words,
        floats,
        marks,
        answers,
    ))
}

// The line from a seed.
#[unsafe(no_mangle)]
pub extern "C" fn hookyellow_streamline(
    case: &[u8],
    seed: Vector,
    backward: bool,
    options: LineOptions,
    words: &mut [u32],
    floats: &mut [f64],
    marks: &mut [u8],
    answers: &mut [u64],
) -> u64
    ensures { JobPromise case.now
        (bytes_of (streamline_words (vector_of seed) (settings_of backward options)
        (search_of options.all_cells)))
        (length words.old) (length floats.old) answers.old marks.old
        (record { result = result; answers = answers.new; marks = marks.new }) }
{
    number_of(job_single::streamline(
        case,
        convert::vector(seed),
        convert::settings(backward, options),
        convert::search(options.all_cells),
        words,
        floats,
        marks,
        answers,
    ))
}

// The sheet of the line from a seed.
#[unsafe(no_mangle)]
pub extern "C" fn hookyellow_sheet(
    case: &[u8],
    seed: Vector,
    backward: bool,
    options: LineOptions,
    words: &mut [u32],
    floats: &mut [f64],
    marks: &mut [u8],
    answers: &mut [u64],
) -> u64
    ensures { JobPromise case.now
        (bytes_of (sheet_words (vector_of seed) (settings_of backward options)
        (search_of options.all_cells)))
        (length words.old) (length floats.old) answers.old marks.old
        (record { result = result; answers = answers.new; marks = marks.new }) }
{
    number_of(job_single::sheet(
        case,
        convert::vector(seed),
        convert::settings(backward, options),
        convert::search(options.all_cells),
        words,
        floats,
        marks,
        answers,
    ))
}

// The lines from `count` seeds, spread from `start` to `end`.
#[unsafe(no_mangle)]
pub extern "C" fn hookyellow_rake(
    case: &[u8],
    start: Vector,
    end: Vector,
    count: usize,
    backward: bool,
    options: LineOptions,
    words: &mut [u32],
    floats: &mut [f64],
    marks: &mut [u8],
    answers: &mut [u64],
) -> u64
    ensures { JobPromise case.now
        (bytes_of (rake_words (rake_of start end count) (settings_of backward options)
        (search_of options.all_cells)))
        (length words.old) (length floats.old) answers.old marks.old
        (record { result = result; answers = answers.new; marks = marks.new }) }
{
    number_of(job_single::rake(
        case,
        convert::seeds(start, end, count),
        convert::settings(backward, options),
        convert::search(options.all_cells),
        words,
        floats,
        marks,
        answers,
    ))
}

// The polygons that a plane cuts.
#[unsafe(no_mangle)]
pub extern "C" fn hookyellow_section(
    case: &[u8],
    plane: SectionPlane,
    words: &mut [u32],
    floats: &mut [f64],
    marks: &mut [u8],
    answers: &mut [u64],
) -> u64
    ensures { JobPromise case.now (bytes_of (section_words (plane_of plane)))
        (length words.old) (length floats.old) answers.old marks.old
        (record { result = result; answers = answers.new; marks = marks.new }) }
{
    number_of(job_single::section(case, convert::plane(plane), words, floats, marks, answers))
}

// The statistics of a field over a section.
#[unsafe(no_mangle)]
pub extern "C" fn hookyellow_statistics(
    case: &[u8],
    plane: SectionPlane,
    field: u64,
    words: &mut [u32],
    floats: &mut [f64],
    marks: &mut [u8],
    answers: &mut [u64],
) -> u64
    ensures { JobPromise case.now (bytes_of (statistics_words (plane_of plane) field))
        (length words.old) (length floats.old) answers.old marks.old
        (record { result = result; answers = answers.new; marks = marks.new }) }
{
    number_of(job_single::statistics(
        case,
        convert::plane(plane),
        field,
        words,
        floats,
        marks,
        answers,
    ))
}

// The integrals over a section.
#[unsafe(no_mangle)]
pub extern "C" fn hookyellow_integrals(
    case: &[u8],
    plane: SectionPlane,
    words: &mut [u32],
    floats: &mut [f64],
    marks: &mut [u8],
    answers: &mut [u64],
) -> u64
    ensures { JobPromise case.now (bytes_of (integrals_words (plane_of plane)))
        (length words.old) (length floats.old) answers.old marks.old
        (record { result = result; answers = answers.new; marks = marks.new }) }
{
    number_of(job_single::integrals(case, convert::plane(plane), words, floats, marks, answers))
}

// The sample at a point of a section.
#[unsafe(no_mangle)]
pub extern "C" fn hookyellow_probe(
    case: &[u8],
    plane: SectionPlane,
    p: Vector,
    words: &mut [u32],
    floats: &mut [f64],
    marks: &mut [u8],
    answers: &mut [u64],
) -> u64
    ensures { JobPromise case.now (bytes_of (probe_words (plane_of plane) (vector_of p)))
        (length words.old) (length floats.old) answers.old marks.old
        (record { result = result; answers = answers.new; marks = marks.new }) }
{
    number_of(job_single::probe(
        case,
        convert::plane(plane),
        convert::vector(p),
        words,
        floats,
        marks,
        answers,
    ))
}
