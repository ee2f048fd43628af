// The first pass of from_cells: the face table and the cells as partial cells, in the lent area.
#![tactic(auto)]

ghost use Rattle.std.specs.Prelude.{◌≡◌, List, ◌+◌, ◌*◌, ◌≤◌, ◌<◌, length};
ghost use Rattle.arith.specs.Limits.{most_points};
ghost use Rattle.case_file.specs.Trailer.{words_in};
ghost use Rattle.case_definitions.specs.Faces.{Definition};
ghost use Rattle.case_definitions.specs.Definitions.{definitions};
ghost use Rattle.mesh_area.specs.Layout.{points_in};
ghost use Rattle.mesh_face_table.specs.Chains.{Chained};
ghost use Rattle.mesh_faces.specs.Ensures.{with_faces};
ghost use Rattle.mesh_cells.specs.Ensures.{AddCellsExit, AddFaceEntry, AddFaceExit, AddFacesEntry, AddFacesExit, FillCellEntry, FillCellExit, NewCellExit, AddCellsEntry, AddCellEntry, AddCellExit};

use arith::number::narrow;
use case_definitions::{Cursor, Head, walker};
use case_faces::FaceCursor;
use mesh_area::Sizes;
use mesh_cell_parts::NewCell;
use refusal::Refusal;

// Where the next record starts, where the next cell's lists start, and the number of faces in
// the table.
#[derive(Clone, Copy)]
struct Progress {
    pub at: usize,
    pub first: usize,
    pub faces: usize,
}

// ---- the faces of a cell

// Face c of the record: its number goes to its place in the cell's list. The next face of the record
// and the number of faces in the table.
fn add_face(
    case: &[u8],
    points: usize,
    dimension: usize,
    ws: &[u8],
    words: &mut [u32],
    floats: &mut [f64],
    s: Sizes,
    cell: NewCell,
    c: FaceCursor,
) -> Result<(FaceCursor, usize), Refusal>
    requires { AddFaceEntry (words_in ws.now) s words.old floats.old cell c × (points ≤ most_points)
        × (24 * points ≤ length case.now) }
    ensures { AddFaceExit dimension (points_in case.now points) (words_in ws.now) cell s
        words.old words.new floats.old floats.new c result }
{
    let mut vertices = [0u32; 8];
    let h = cell.head;
    let copied = case_faces::copy_face(ws, h, c, &mut vertices);
    let count = copied.count;
    let (f, n) = mesh_cell_parts::place_face(
        case,
        points,
        dimension,
        words,
        floats,
        s,
        cell,
        &mut vertices[..count],
    )?;
    let at = 13 * s.slots + cell.first + c.face;
    words[at] = narrow(f);
    let next = copied.next;
    Ok((next, n))
}

// All faces of the cell.
fn add_faces(
    case: &[u8],
    points: usize,
    dimension: usize,
    ws: &[u8],
    words: &mut [u32],
    floats: &mut [f64],
    s: Sizes,
    cell: NewCell,
) -> Result<usize, Refusal>
    requires { AddFacesEntry (words_in ws.now) s words.old floats.old cell × (points ≤ most_points)
        × (24 * points ≤ length case.now) }
    ensures { AddFacesExit dimension (points_in case.now points) (words_in ws.now) cell s
        words.old words.new floats.old floats.new result }
{
    let h = cell.head;
    let mut n = s.faces;
    let mut c = case_faces::first_face(h);
    for _ in 0..h.faces {
        let t = Sizes {
            slots: s.slots,
            faces: n,
            cells: s.cells,
        };
        let (next, m) = add_face(case, points, dimension, ws, words, floats, t, cell, c)?;
        n = m;
        c = next;
    }
    Ok(n)
}

// ---- the cells

// The cell with its faces.
fn fill_cell(
    case: &[u8],
    points: usize,
    dimension: usize,
    ws: &[u8],
    words: &mut [u32],
    floats: &mut [f64],
    s: Sizes,
    cell: NewCell,
) -> Result<usize, Refusal>
    requires { FillCellEntry (words_in ws.now) s words.old floats.old cell × (points ≤ most_points)
        × (24 * points ≤ length case.now) }
    ensures { FillCellExit dimension (points_in case.now points) (words_in ws.now) cell s
        words.old words.new floats.old floats.new result }
{
    let h = cell.head;
    let reference = cell.reference;
    mesh_cell_parts::put_cell(
        words,
        floats,
        s,
        cell.number,
        narrow(h.at),
        narrow(cell.first),
        narrow(h.faces),
        reference,
    );
    add_faces(case, points, dimension, ws, words, floats, s, cell)
}

// Cell i, whose record is the next one, and where the record after it starts.
fn new_cell(
    case: &[u8],
    points: usize,
    dimension: usize,
    ws: &[u8],
    i: usize,
    p: Progress,
) -> Result<(NewCell, Cursor), Refusal>
    requires { (points ≤ most_points) × (24 * points ≤ length case.now) }
    ensures { NewCellExit dimension (points_in case.now points) (words_in ws.now) i p result }
{
    // The walker refuses nothing where the definitions are right (`AddCellsEntry`).
    let (head, next) = walker::record_at(ws, Cursor { at: p.at })?;
    let reference = mesh_points::reference_of(dimension, case, points, ws, head)?;
    let cell = NewCell {
        number: i,
        reference,
        head,
        first: p.first,
    };
    Ok((cell, next))
}

// One cell more: the record at the cursor.
fn add_cell(
    case: &[u8],
    points: usize,
    dimension: usize,
    ws: &[u8],
    words: &mut [u32],
    floats: &mut [f64],
    s: Sizes,
    i: usize,
    p: Progress,
) -> Result<Progress, Refusal>
    requires { AddCellEntry dimension (points_in case.now points) case.now points (words_in ws.now) words.old
        floats.old s i p }
    ensures { AddCellExit dimension (points_in case.now points) (words_in ws.now) s
        words.new floats.new i result }
{
    let (cell, next) = new_cell(case, points, dimension, ws, i, p)?;
    let t = Sizes {
        slots: s.slots,
        faces: p.faces,
        cells: s.cells,
    };
    let faces = fill_cell(case, points, dimension, ws, words, floats, t, cell)?;
    Ok(Progress {
        at: next.at,
        first: cell.first + cell.head.faces,
        faces,
    })
}

// All cells, into an empty table.
fn fill_cells(
    case: &[u8],
    points: usize,
    dimension: usize,
    ws: &[u8],
    words: &mut [u32],
    floats: &mut [f64],
    s: Sizes,
) -> Result<usize, Refusal>
    requires { AddCellsEntry case.now points (words_in ws.now) words.old floats.old s
        × Chained (with_faces s 0) words.old }
    ensures { (defs : List Definition) → definitions s.cells (words_in ws.now) ≡ Ok defs
        → AddCellsExit dimension (points_in case.now points) (words_in ws.now) defs s
        words.new floats.new result }
{
    let mut p = Progress {
        at: 0,
        first: 0,
        faces: 0,
    };
    for i in 0..s.cells {
        p = add_cell(case, points, dimension, ws, words, floats, s, i, p)?;
    }
    Ok(p.faces)
}

// The first pass over the definitions `ws`: all cells, each with its faces.
pub fn add_cells(
    case: &[u8],
    points: usize,
    dimension: usize,
    ws: &[u8],
    words: &mut [u32],
    floats: &mut [f64],
    s: Sizes,
) -> Result<usize, Refusal>
    requires { AddCellsEntry case.now points (words_in ws.now) words.old floats.old s }
    ensures { (defs : List Definition) → definitions s.cells (words_in ws.now) ≡ Ok defs
        → AddCellsExit dimension (points_in case.now points) (words_in ws.now) defs s
        words.new floats.new result }
{
    mesh_faces::clear(words, s);
    fill_cells(case, points, dimension, ws, words, floats, s)
}
