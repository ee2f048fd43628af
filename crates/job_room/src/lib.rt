// The room of a case: its mesh in the work area and, in 2D, its field. Refusals 1 to 19, and 45.
#![tactic(auto)]

ghost use Rattle.std.specs.Prelude.{◌≤◌, ◌≡◌, List, length};
ghost use Rattle.arith.specs.Limits.{most_cells, most_words};
ghost use Rattle.case_definitions.specs.Faces.{Definition};
ghost use Rattle.case_definitions.specs.Definitions.{definitions};
ghost use Rattle.case_file.specs.Trailer.{words_of};
ghost use Rattle.case_file.specs.Field.{zones_of};
ghost use Rattle.mesh_area.specs.Layout.{points_in, mesh_in};
ghost use Rattle.mesh.specs.Ensures.{BuildEntry};
ghost use Rattle.job_room.specs.Room as Room;
ghost use Rattle.job_room.specs.Ensures.{PrepareExit, Shortage, AddFieldEntry};

use case_file::Counts;
use lines_build::build;
use lines_locate::Search;
use lines_velocity::Tracer;
use mesh_area::Sizes;
use refusal::Refusal;

// Where a room stands in the work area.
#[derive(Clone, Copy)]
pub enum Place {
    Flat(Tracer),
    Solid(Counts, Sizes),
}

// The field of a 2D mesh; a 3D one needs none.
fn add_field(
    case: &[u8],
    n: Counts,
    s: Sizes,
    words: &mut [u32],
    floats: &mut [f64],
) -> Result<Place, Refusal>
    requires { AddFieldEntry case.now n s words.old floats.old }
    ensures { PrepareExit (Room.room_from n.dimension (zones_of case.now)
        (mesh_in (points_in case.now n.points) s words.old floats.old))
        case.now words.new floats.new result }
{
    if n.dimension != 2 {
        return Ok(Place::Solid(n, s));
    }
    let grid = build::from_dataset(case, n.points, words, floats, s)?;
    Ok(Place::Flat(Tracer {
        counts: n,
        sizes: s,
        grid,
        search: Search::Bins,
        home: 0,
    }))
}

// 8 to 19.
fn build_room(
    case: &[u8],
    n: Counts,
    faces: usize,
    words: &mut [u32],
    floats: &mut [f64],
) -> Result<Place, Refusal>
    requires { BuildEntry case.now n faces words.old floats.old }
    ensures { (defs : List Definition) → definitions n.cells (words_of case.now n) ≡ Ok defs
        → PrepareExit (Room.room_of case.now (record { counts = n; definitions = defs })) case.now
        words.new floats.new result }
{
    let s = mesh::build(case, n, faces, words, floats)?;
    add_field(case, n, s, words, floats)
}

// Refusal 6: no multiple of 128 bytes, or over 4,096 requests.
fn are_wrong(requests: usize) -> bool
    ensures { result ≡ Room.requests_wrong requests }
{
    requests % 128 != 0 || requests > 524288
}

// Refusals 4 to 7.
fn shortage(
    n: Counts,
    faces: usize,
    words: usize,
    floats: usize,
    marks: usize,
    requests: usize,
    answers: usize,
) -> Result<(), Refusal>
    requires { (faces ≤ most_words) × (n.cells ≤ most_cells) }
    ensures { Shortage n faces requests
        (record { words = words; floats = floats; marks = marks; answers = answers }) result }
{
    if mesh::is_short(n, faces, words, floats) {
        return Err(Refusal::ShortWorkArea);
    }
    if marks < n.cells {
        return Err(Refusal::ShortMarks);
    }
    if are_wrong(requests) {
        return Err(Refusal::WrongRequestBytes);
    }
    if answers < 2 * (requests / 128) {
        return Err(Refusal::ShortAnswers);
    }
    Ok(())
}

// The room of a case, into the work area; of the other buffers the lengths are given.
pub fn prepare(
    case: &[u8],
    words: &mut [u32],
    floats: &mut [f64],
    marks: usize,
    requests: usize,
    answers: usize,
) -> Result<Place, Refusal>
    ensures { PrepareExit (Room.prepared case.now requests
        (record {
          words = length words.entry.now;
          floats = length floats.old;
          marks = marks;
          answers =
              answers;
        })) case.now words.exit.now floats.new result }
{
    let (n, faces) = case_survey::survey(case)?;
    shortage(
        n,
        faces,
        words.len(),
        floats.len(),
        marks,
        requests,
        answers,
    )?;
    build_room(case, n, faces, words, floats)
}
