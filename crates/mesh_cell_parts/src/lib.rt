// The parts of a cell's partial cell, in the lent area: a face of it in the face table, and its record.
#![tactic(auto)]

ghost use Rattle.std.specs.Prelude.{◌+◌, ◌*◌, ◌≤◌, ◌<◌, length};
ghost use Rattle.arith.specs.Limits.{most_points, most_cells, most_words};
ghost use Rattle.mesh_area.specs.Layout.{points_in};
ghost use Rattle.mesh_faces.specs.Ensures.{UseFaceEntry};
ghost use Rattle.mesh_cell_parts.specs.Ensures.{PlaceFaceExit, PutCellExit};

use arith::Vec3;
use case_definitions::Head;
use mesh_area::Sizes;
use mesh_faces::Added;
use refusal::Refusal;

// A cell that is added: its number, the average of its points, its record, and where the list of
// its faces' numbers starts.
#[derive(Clone, Copy)]
pub struct NewCell {
    pub number: usize,
    pub reference: Vec3,
    pub head: Head,
    pub first: usize,
}

// A face of the cell, turned outward, is added to the table, or gets its second cell. The face's
// number and the number of faces in the table.
pub fn place_face(
    case: &[u8],
    points: usize,
    dimension: usize,
    words: &mut [u32],
    floats: &mut [f64],
    s: Sizes,
    cell: NewCell,
    vertices: &mut [u32],
) -> Result<(usize, usize), Refusal>
    requires { UseFaceEntry s words.old floats.old vertices.old cell.number × (points ≤ most_points)
        × (24 * points ≤ length case.now) }
    ensures { PlaceFaceExit dimension (points_in case.now points) cell s words.old
        words.new floats.old floats.new vertices.old result }
{
    let reference = cell.reference;
    let turned = mesh_geometry::oriented_face(dimension, case, points, vertices, reference);
    let Some(g) = turned else {
        return Err(Refusal::DegenerateFace);
    };
    let added = mesh_faces::use_face(words, floats, s, cell.number, vertices, g);
    match added {
        Added::New(f) => Ok((f, s.faces + 1)),
        Added::Second(f) => Ok((f, s.faces)),
        Added::Third => Err(Refusal::ThirdUser),
    }
}

// The record of cell i; the average stands where its centre will.
pub fn put_cell(
    words: &mut [u32],
    floats: &mut [f64],
    s: Sizes,
    i: usize,
    at: u32,
    first: u32,
    count: u32,
    reference: Vec3,
)
    requires { (s.slots ≤ most_words) × (i < most_cells) × (16 * s.slots + 8 * i + 8 ≤ length words.old)
        × (12 * s.slots + 4 * i + 4 ≤ length floats.old) }
    ensures { PutCellExit s words.old words.new floats.old floats.new i
        at first count reference }
{
    let w = 16 * s.slots + 8 * i;
    words[w] = at;
    words[w + 1] = first;
    words[w + 2] = count;
    words[w + 3] = 0;
    let f = 12 * s.slots + 4 * i;
    floats[f] = reference.x;
    floats[f + 1] = reference.y;
    floats[f + 2] = reference.z;
}
