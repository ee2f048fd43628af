// Each request alone, as a job of one: it starts from the case bytes too.
#![tactic(auto)]

ghost use Rattle.std.specs.Prelude.{◌≡◌, length};
ghost use Rattle.job_requests.specs.Encode.{bytes_of};
ghost use Rattle.job_promise.specs.Job.{number_of, result_of};
ghost use Rattle.job_promise.specs.Promise.{JobPromise};
ghost use Rattle.job_encoding.specs.Single.{locate_words, velocity_words, streamline_words, sheet_words, rake_words, section_words, statistics_words, integrals_words, probe_words};

use arith::Vec3;
use lines::{Rake, StreamlineSettings};
use lines_locate::Search;
use planes_cut::Plane;
use refusal::Refusal;

// The cell at a point.
pub fn locate(
    case: &[u8],
    p: Vec3,
    search: Search,
    words: &mut [u32],
    floats: &mut [f64],
    marks: &mut [u8],
    answers: &mut [u64],
) -> Result<(), Refusal>
    ensures promise { JobPromise case.now (bytes_of (locate_words p search))
        (length words.old) (length floats.old) answers.old marks.old
        (record { result = number_of result; answers = answers.new; marks = marks.new }) }
    ensures value { result ≡ result_of case.now (bytes_of (locate_words p search))
        (length words.old) (length floats.old) answers.old marks.old }
{
    let request = job_encoding::locate(p, search);
    job::job(case, &request, words, floats, marks, answers)
}

// The velocity at a point.
pub fn velocity(
    case: &[u8],
    p: Vec3,
    search: Search,
    words: &mut [u32],
    floats: &mut [f64],
    marks: &mut [u8],
    answers: &mut [u64],
) -> Result<(), Refusal>
    ensures promise { JobPromise case.now (bytes_of (velocity_words p search))
        (length words.old) (length floats.old) answers.old marks.old
        (record { result = number_of result; answers = answers.new; marks = marks.new }) }
    ensures value { result ≡ result_of case.now (bytes_of (velocity_words p search))
        (length words.old) (length floats.old) answers.old marks.old }
{
    let request = job_encoding::velocity(p, search);
    job::job(case, &request, words, floats, marks, answers)
}

// The line from a seed.
pub fn streamline(
    case: &[u8],
    seed: Vec3,
    settings: StreamlineSettings,
    search: Search,
    words: &mut [u32],
    floats: &mut [f64],
    marks: &mut [u8],
    answers: &mut [u64],
) -> Result<(), Refusal>
    ensures promise { JobPromise case.now (bytes_of (streamline_words seed settings search))
        (length words.old) (length floats.old) answers.old marks.old
        (record { result = number_of result; answers = answers.new; marks = marks.new }) }
    ensures value { result ≡ result_of case.now (bytes_of (streamline_words seed settings search))
        (length words.old) (length floats.old) answers.old marks.old }
{
    let request = job_encoding::streamline(seed, settings, search);
    job::job(case, &request, words, floats, marks, answers)
}

// The sheet of the line from a seed.
pub fn sheet(
    case: &[u8],
    seed: Vec3,
    settings: StreamlineSettings,
    search: Search,
    words: &mut [u32],
    floats: &mut [f64],
    marks: &mut [u8],
    answers: &mut [u64],
) -> Result<(), Refusal>
    ensures promise { JobPromise case.now (bytes_of (sheet_words seed settings search))
        (length words.old) (length floats.old) answers.old marks.old
        (record { result = number_of result; answers = answers.new; marks = marks.new }) }
    ensures value { result ≡ result_of case.now (bytes_of (sheet_words seed settings search))
        (length words.old) (length floats.old) answers.old marks.old }
{
    let request = job_encoding::sheet(seed, settings, search);
    job::job(case, &request, words, floats, marks, answers)
}

// The lines from the seeds of a rake.
pub fn rake(
    case: &[u8],
    seeds: Rake,
    settings: StreamlineSettings,
    search: Search,
    words: &mut [u32],
    floats: &mut [f64],
    marks: &mut [u8],
    answers: &mut [u64],
) -> Result<(), Refusal>
    ensures promise { JobPromise case.now (bytes_of (rake_words seeds settings search))
        (length words.old) (length floats.old) answers.old marks.old
        (record { result = number_of result; answers = answers.new; marks = marks.new }) }
    ensures value { result ≡ result_of case.now (bytes_of (rake_words seeds settings search))
        (length words.old) (length floats.old) answers.old marks.old }
{
    let request = job_encoding::rake(seeds, settings, search);
    job::job(case, &request, words, floats, marks, answers)
}

// The polygons that a plane cuts.
pub fn section(
    case: &[u8],
    plane: Plane,
    words: &mut [u32],
    floats: &mut [f64],
    marks: &mut [u8],
    answers: &mut [u64],
) -> Result<(), Refusal>
    ensures promise { JobPromise case.now (bytes_of (section_words plane))
        (length words.old) (length floats.old) answers.old marks.old
        (record { result = number_of result; answers = answers.new; marks = marks.new }) }
    ensures value { result ≡ result_of case.now (bytes_of (section_words plane))
        (length words.old) (length floats.old) answers.old marks.old }
{
    let request = job_encoding::section(plane);
    job::job(case, &request, words, floats, marks, answers)
}

// The statistics of a field over a section.
pub fn statistics(
    case: &[u8],
    plane: Plane,
    field: u64,
    words: &mut [u32],
    floats: &mut [f64],
    marks: &mut [u8],
    answers: &mut [u64],
) -> Result<(), Refusal>
    ensures promise { JobPromise case.now (bytes_of (statistics_words plane field))
        (length words.old) (length floats.old) answers.old marks.old
        (record { result = number_of result; answers = answers.new; marks = marks.new }) }
    ensures value { result ≡ result_of case.now (bytes_of (statistics_words plane field))
        (length words.old) (length floats.old) answers.old marks.old }
{
    let request = job_encoding::statistics(plane, field);
    job::job(case, &request, words, floats, marks, answers)
}

// The integrals over a section.
pub fn integrals(
    case: &[u8],
    plane: Plane,
    words: &mut [u32],
    floats: &mut [f64],
    marks: &mut [u8],
    answers: &mut [u64],
) -> Result<(), Refusal>
    ensures promise { JobPromise case.now (bytes_of (integrals_words plane))
        (length words.old) (length floats.old) answers.old marks.old
        (record { result = number_of result; answers = answers.new; marks = marks.new }) }
    ensures value { result ≡ result_of case.now (bytes_of (integrals_words plane))
        (length words.old) (length floats.old) answers.old marks.old }
{
    let request = job_encoding::integrals(plane);
    job::job(case, &request, words, floats, marks, answers)
}

// The sample at a point of a section.
pub fn probe(
    case: &[u8],
    plane: Plane,
    p: Vec3,
    words: &mut [u32],
    floats: &mut [f64],
    marks: &mut [u8],
    answers: &mut [u64],
) -> Result<(), Refusal>
    ensures promise { JobPromise case.now (bytes_of (probe_words plane p))
        (length words.old) (length floats.old) answers.old marks.old
        (record { result = number_of result; answers = answers.new; marks = marks.new }) }
    ensures value { result ≡ result_of case.now (bytes_of (probe_words plane p))
        (length words.old) (length floats.old) answers.old marks.old }
{
    let request = job_encoding::probe(plane, p);
    job::job(case, &request, words, floats, marks, answers)
}
