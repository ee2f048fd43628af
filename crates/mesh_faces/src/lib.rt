// The use of a face by a cell, over the face table of `from_cells` in the lent area.
#![tactic(auto)]

ghost use Rattle.std.specs.Prelude.{◌≡◌, ◌*◌, replicate};
ghost use Rattle.std.proofs.lemmas.List.Edits.{sets};
ghost use Rattle.mesh_area.specs.Layout.{LentWords};
ghost use Rattle.mesh_faces.specs.Ensures.{AddEntry, AddExit, SettleExit, UseFaceEntry, UseFaceExit};

use mesh_area::Sizes;
use mesh_geometry::FaceGeometry;

#[derive(Clone, Copy)]
pub enum Added {
    // the face is new, and has this number
    New(usize),
    // the face of this number has its second cell
    Second(usize),
    // the face has two cells already
    Third,
}

// One face more, at the end of its bucket's chain.
fn add(
    words: &mut [u32],
    floats: &mut [f64],
    slots: usize,
    n: usize,
    vertices: &[u32],
    m: FaceGeometry,
    cell: u32,
)
    requires { AddEntry words.old floats.old slots n vertices.now cell }
    ensures { AddExit words.old words.new floats.old floats.new slots
        n vertices.now m cell }
{
    let b = mesh_keys::sum(vertices) % slots;
    let link = mesh_face_table::head_of(words, slots, b);
    mesh_face_table::store_face(words, n, vertices, cell, link);
    mesh_face_table::store_head(words, slots, b, n as u32 + 1);
    mesh_face_table::store_measured(floats, n, m);
}

// The face of these numbers, used by this cell.
fn settle(
    words: &mut [u32],
    floats: &mut [f64],
    slots: usize,
    n: usize,
    vertices: &[u32],
    m: FaceGeometry,
    cell: u32,
) -> Added
    requires { AddEntry words.old floats.old slots n vertices.now cell }
    ensures { SettleExit words.old words.new floats.old floats.new
        slots n vertices.now m cell result }
{
    let at = mesh_face_table::find(words, slots, n, vertices);
    if at == 0 {
        add(words, floats, slots, n, vertices, m, cell);
        return Added::New(n);
    }
    let f = at - 1;
    if mesh_face_table::neighbour_word(words, f) == 0 {
        mesh_face_table::store_neighbour(words, f, cell + 1);
        return Added::Second(f);
    }
    Added::Third
}

// ---- the table in the mesh's part of the area

// A cell uses a face: it is added to the table, or gets its second cell, or has two already.
pub fn use_face(
    words: &mut [u32],
    floats: &mut [f64],
    s: Sizes,
    cell: usize,
    vertices: &[u32],
    m: FaceGeometry,
) -> Added
    requires { UseFaceEntry s words.old floats.old vertices.now cell }
    ensures { UseFaceExit s words.old words.new floats.old floats.new
        vertices.now m cell result }
{
    let words_end = 16 * s.slots + 8 * s.cells;
    let floats_end = 12 * s.slots + 4 * s.cells;
    settle(
        &mut words[..words_end],
        &mut floats[..floats_end],
        s.slots,
        s.faces,
        vertices,
        m,
        cell as u32,
    )
}

// An empty table: no bucket has a face.
pub fn clear(words: &mut [u32], s: Sizes)
    requires { LentWords s words.old }
    ensures { words.new ≡ sets words.old (12 * s.slots) (replicate s.slots 0) }
{
    let heads = 12 * s.slots;
    words[heads..heads + s.slots].fill(0);
}
