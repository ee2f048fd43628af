// The second pass of from_cells: each cell's centre and its area or volume (15).
#![tactic(auto)]

ghost use Rattle.std.specs.Prelude.{◌≡◌, ◌+◌, ◌≤◌, length};
ghost use Rattle.arith.specs.Records.{puts};
ghost use Rattle.case_file.specs.Trailer.{words_in};
ghost use Rattle.mesh_area.specs.Layout.{points_in, vec_from};
ghost use Rattle.mesh_centres.specs.Ensures.{FinishCellsEntry, FinishCellsExit, floats_of, FinishRecordEntry, FinishRecordExit, FinishCellEntry, FinishCellExit};

use arith::Vec3;
use case_definitions::{Cursor, Head, walker};
use mesh_area::Sizes;
use mesh_volumes::CellGeometry;
use refusal::Refusal;

// The average of a cell, at its place.
fn reference_at(floats: &[f64], at: usize) -> Vec3
    requires { at + 4 ≤ length floats.now }
    ensures { result ≡ vec_from floats.now at }
{
    Vec3::new(floats[at], floats[at + 1], floats[at + 2])
}

// The centre and the volume of a cell, at its place.
fn put_geometry(floats: &mut [f64], at: usize, g: CellGeometry)
    requires { at + 4 ≤ length floats.old }
    ensures { floats.new ≡ puts floats.old at (floats_of g) }
{
    floats[at] = g.centre.x;
    floats[at + 1] = g.centre.y;
    floats[at + 2] = g.centre.z;
    floats[at + 3] = g.volume;
}

// Cell i, whose definition is the record h.
fn finish_record(
    case: &[u8],
    points: usize,
    dimension: usize,
    ws: &[u8],
    floats: &mut [f64],
    s: Sizes,
    i: usize,
    h: Head,
) -> Result<(), Refusal>
    requires { FinishRecordEntry case.now points (words_in ws.now) floats.old s i h }
    ensures { FinishRecordExit dimension (points_in case.now points) (words_in ws.now) s
        floats.old floats.new i h.at result }
{
    let base = 12 * s.slots;
    let at = base + 4 * i;
    let reference = reference_at(floats, at);
    let Some(g) = mesh_measure::cell_geometry(dimension, case, points, ws, h, reference) else {
        return Err(Refusal::NoVolume);
    };
    put_geometry(floats, at, g);
    Ok(())
}

// Cell i, whose definition is the record at c.
fn finish_cell(
    case: &[u8],
    points: usize,
    dimension: usize,
    ws: &[u8],
    floats: &mut [f64],
    s: Sizes,
    i: usize,
    c: Cursor,
) -> Result<Cursor, Refusal>
    requires { FinishCellEntry case.now points (words_in ws.now) floats.old s i c }
    ensures { FinishCellExit dimension (points_in case.now points) (words_in ws.now) s
        floats.old floats.new i c.at result }
{
    // The walker refuses nothing here: a right record is at c, since all of them were walked over
    // before the first pass (`FinishCellEntry`).
    let (h, next) = walker::record_at(ws, c)?;
    finish_record(case, points, dimension, ws, floats, s, i, h)?;
    Ok(next)
}

// All cells, up to the first that has no volume.
pub fn finish_cells(
    case: &[u8],
    points: usize,
    dimension: usize,
    ws: &[u8],
    words: &[u32],
    floats: &mut [f64],
    s: Sizes,
) -> Result<(), Refusal>
    requires { FinishCellsEntry case.now points (words_in ws.now) words.now floats.old s }
    ensures { FinishCellsExit dimension (points_in case.now points) (words_in ws.now) s
        words.now floats.old floats.new result }
{
    let mut c = Cursor { at: 0 };
    for i in 0..s.cells {
        c = finish_cell(case, points, dimension, ws, floats, s, i, c)?;
    }
    Ok(())
}
