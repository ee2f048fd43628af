// The job: a case, a list of requests, and the buffers that are lent to it.
#![tactic(auto)]

ghost use Rattle.std.specs.Prelude.{◌≡◌, List, ℕ, ◌+◌, ◌-◌, ◌*◌, ◌/◌, ◌≤◌, ◌<◌, Float, length};
ghost use Rattle.reading.specs.After.{done, Left};
ghost use Rattle.case_file.specs.Field.{values_of};
ghost use Rattle.job_requests.specs.Requests.{words_at, requests_in};
ghost use Rattle.job_room.specs.Ensures.{counts_in, room_in, RoomStands};
ghost use Rattle.job_promise.specs.List.{is_flat, serve_all};
ghost use Rattle.job_promise.specs.Job.{number_of, result_of};
ghost use Rattle.job_promise.specs.Promise.{JobPromise};
ghost use Rattle.job_promise.specs.Ensures.{ServeAllExit, answer_to, later_than};

use answers::buffers::{clear_from, clear_marks, close};
use job_requests::request_of;
use job_room::Place;
use refusal::Refusal;

fn is_flat(place: Place) -> bool
    ensures { (file words : List ℕ) (floats : List Float) → result ≡ is_flat (room_in file words floats place) }
{
    matches!(place, Place::Flat(_))
}

fn cells_of(place: Place) -> usize
    ensures { result ≡ (counts_in place).cells }
{
    match place {
        Place::Flat(t) => t.counts.cells,
        Place::Solid(n, _) => n.cells,
    }
}

// The answer to request i, from word `at` on. Where the next one goes.
fn answer(
    case: &[u8],
    requests: &[u8],
    i: usize,
    words: &[u32],
    floats: &[f64],
    place: Place,
    marks: &mut [u8],
    answers: &mut [u64],
    at: usize,
) -> usize
    requires room_stands { RoomStands case.now words.now floats.now place
        × ((counts_in place).cells ≤ length marks.old) }
    requires i_in_bounds { (i < length requests.now / 128)
        × (at + 2 + 2 * later_than requests.now i ≤ length answers.old) }
    ensures { ServeAllExit (answer_to (room_in case.now words.now floats.now
        place) (length answers.old - at) (later_than requests.now i)
        (words_at requests.now (128 * i))) (values_of case.now) marks.old
        marks.new answers.old answers.new at (later_than requests.now i) result }
{
    let later = requests.len() / 128 - i - 1;
    let q = request_of(is_flat(place), requests, 128 * i);
    let r = job_serve::serve(case, words, floats, place, marks, &mut answers[at + 2..], q);
    close(answers, at, later, r)
}

// All answers, one after the other. Where the last one ends.
fn serve_all(
    case: &[u8],
    requests: &[u8],
    words: &[u32],
    floats: &[f64],
    place: Place,
    marks: &mut [u8],
    answers: &mut [u64],
) -> usize
    requires room_stands { RoomStands case.now words.now floats.now place
        × ((counts_in place).cells ≤ length marks.old) }
    requires requests_in_bounds { 2 * (length requests.now / 128) ≤ length answers.old }
    ensures { ServeAllExit (serve_all (room_in case.now words.now floats.now
        place) (length answers.old) (requests_in requests.now)) (values_of case.now)
        marks.old marks.new answers.old answers.new 0 0 result }
{
    let mut at = 0;
    for i in 0..requests.len() / 128 {
        at = answer(case, requests, i, words, floats, place, marks, answers, at);
    }
    at
}

// An accepted job.
fn run(
    case: &[u8],
    requests: &[u8],
    words: &[u32],
    floats: &[f64],
    place: Place,
    marks: &mut [u8],
    answers: &mut [u64],
)
    requires room_stands { RoomStands case.now words.now floats.now place
        × ((counts_in place).cells ≤ length marks.old) }
    requires requests_in_bounds { 2 * (length requests.now / 128) ≤ length answers.old }
    ensures { Left (done (Ok (serve_all (room_in case.now words.now floats.now
        place) (length answers.old) (requests_in requests.now))) (values_of case.now)
        (counts_in place).cells answers.old marks.old) 0 answers.new
        marks.new }
{
    clear_marks(marks, cells_of(place));
    let end = serve_all(case, requests, words, floats, place, marks, answers);
    clear_from(answers, end);
}

// Builds the mesh of a case, then serves the requests in order.
pub fn job(
    case: &[u8],
    requests: &[u8],
    words: &mut [u32],
    floats: &mut [f64],
    marks: &mut [u8],
    answers: &mut [u64],
) -> Result<(), Refusal>
    ensures promise { JobPromise case.now requests.now
        (length words.old) (length floats.old) answers.old marks.old
        (record { result = number_of result; answers = answers.new; marks = marks.new }) }
    ensures value { result ≡ result_of case.now requests.now
        (length words.old) (length floats.old) answers.old marks.old }
{
    let place = job_room::prepare(
        case,
        words,
        floats,
        marks.len(),
        requests.len(),
        answers.len(),
    )?;
    run(case, requests, words, floats, place, marks, answers);
    Ok(())
}
