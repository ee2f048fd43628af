// UnstructuredMesh::from_cells: the mesh of a case, into the lent work area.
#![tactic(auto)]

ghost use Rattle.std.specs.Prelude.{◌≡◌, ◌+◌, ◌*◌, ◌<◌, ◌≤◌, length, List};
ghost use Rattle.arith.specs.Limits.{most_cells, most_words};
ghost use Rattle.mesh_area.specs.Layout.{points_in};
ghost use Rattle.case_file.specs.Trailer.{words_in, counts_of, words_of};
ghost use Rattle.arith.specs.declared.Vec3.{Vec3};
ghost use Rattle.mesh_area.specs.Layout.{faces_in, cells_in};
ghost use Rattle.case_definitions.specs.Faces.{Definition, faces_counted};
ghost use Rattle.case_definitions.specs.Definitions.{definitions};
ghost use Rattle.case_survey.specs.Survey.{survey_of};
ghost use Rattle.mesh_cells.specs.Ensures.{AddCellsEntry};
ghost use Rattle.mesh.specs.Mesh.{joined, completed, filled, from_cells};
ghost use Rattle.mesh.specs.Ensures.{BuildExit, JoinEntry, CompleteEntry, BuildEntry, partial_mesh_in};
ghost use Rattle.mesh.specs.Case.{area_short, case_faces, mesh_from};

use case_definitions::walker;
use case_file::Counts;
use mesh_area::Sizes;
use refusal::Refusal;

// Refusal 4: a work area of these lengths is too short for a case with so many faces.
pub fn is_short(n: Counts, faces: usize, words: usize, floats: usize) -> bool
    requires { (faces ≤ most_words) × (n.cells ≤ most_cells) }
    ensures { (defs : List Definition) → faces ≡ faces_counted defs → result ≡ area_short
        (record { counts = n; definitions = defs }) words floats }
{
    words < 16 * faces + 96 * n.cells || floats < 12 * faces + 64 * n.cells
}

// 16, then the neighbours of each cell, then 17.
fn join(words: &mut [u32], floats: &[f64], s: Sizes) -> Result<Sizes, Refusal>
    requires { JoinEntry s words.old floats.now }
    ensures { (ps : List Vec3) → BuildExit (joined ps (faces_in s words.old floats.now)
        (cells_in s words.old floats.now)) s.slots ps words.new floats.now
        result }
{
    if mesh_orientation::any_misplaced(words, floats, s) {
        return Err(Refusal::WrongOrientation);
    }
    mesh_neighbours::fill_neighbours(words, s);
    if mesh_connection::ensure_connected(words, s) {
        Ok(s)
    } else {
        Err(Refusal::NotConnected)
    }
}

// The partial cells in the area with their centres (15), then 16 and 17.
fn complete(
    case: &[u8],
    n: Counts,
    ws: &[u8],
    words: &mut [u32],
    floats: &mut [f64],
    s: Sizes,
) -> Result<Sizes, Refusal>
    requires { CompleteEntry case.now n.points (words_in ws.now) words.old floats.old s }
    ensures { BuildExit (completed n.dimension (points_in case.now n.points)
        (partial_mesh_in (words_in ws.now) s words.old floats.old)) s.slots
        (points_in case.now n.points) words.new floats.new result }
{
    mesh_centres::finish_cells(case, n.points, n.dimension, ws, words, floats, s)?;
    join(words, floats, s)
}

// 11 to 17.
fn fill(
    case: &[u8],
    n: Counts,
    ws: &[u8],
    words: &mut [u32],
    floats: &mut [f64],
    s: Sizes,
) -> Result<Sizes, Refusal>
    requires { AddCellsEntry case.now n.points (words_in ws.now) words.old floats.old s }
    ensures { (defs : List Definition) → definitions s.cells (words_in ws.now) ≡ Ok defs
        → BuildExit (filled n.dimension (points_in case.now n.points) defs) s.slots
        (points_in case.now n.points) words.new floats.new result }
{
    let faces = mesh_cells::add_cells(case, n.points, n.dimension, ws, words, floats, s)?;
    let filled = Sizes {
        slots: s.slots,
        faces,
        cells: s.cells,
    };
    complete(case, n, ws, words, floats, filled)
}

// The mesh of a case that was surveyed, into an area that is long enough: refusals 8 to 17.
pub fn build(
    case: &[u8],
    n: Counts,
    faces: usize,
    words: &mut [u32],
    floats: &mut [f64],
) -> Result<Sizes, Refusal>
    requires { BuildEntry case.now n faces words.old floats.old }
    ensures { (defs : List Definition) → definitions n.cells (words_of case.now n) ≡ Ok defs
        → BuildExit (from_cells n.dimension (points_in case.now n.points) defs) faces
        (points_in case.now n.points) words.new floats.new result }
{
    mesh_coordinates::accept(case, n)?;
    let ws = walker::words(case, n);
    fill(
        case,
        n,
        ws,
        words,
        floats,
        Sizes {
            slots: faces,
            faces: 0,
            cells: n.cells,
        },
    )
}

// The mesh of a case: refusals 1 to 4, 8 to 17, and 45.
pub fn from_cells(case: &[u8], words: &mut [u32], floats: &mut [f64]) -> Result<Sizes, Refusal>
    ensures { BuildExit
        (mesh_from case.now (length words.old) (length floats.old))
        (case_faces (survey_of case.now))
        (points_in case.now (counts_of case.now).points) words.new floats.new
        result }
{
    let (n, faces) = case_survey::survey(case)?;
    if is_short(n, faces, words.len(), floats.len()) {
        return Err(Refusal::ShortWorkArea);
    }
    build(case, n, faces, words, floats)
}
