// The mesh as records in the lent work area: what stands where, and the functions that read it.
// Each reads for every number: past the end it finds what the definition finds there.
#![tactic(auto)]

ghost use Rattle.std.specs.Prelude.{◌≡◌, List, ℕ, ◌+◌, ◌*◌, ◌≤◌, ◌<◌, length, get_or, take, Float};
ghost use Rattle.std.specs.Float.{nan};
ghost use Rattle.arith.specs.Limits.{most_points, most_cells, most_words, 2^32};
ghost use Rattle.mesh_area.specs.Tables.{point_at, face_at, cell_at};
ghost use Rattle.mesh_area.specs.Layout as Layout;
ghost use Rattle.mesh_area.specs.Layout.{points_in, faces_in, cells_in, vec_from, mesh_words, mesh_floats, LentWords, LentFloats};

use arith::Vec3;

// The words of a face's record, by their offset: its vertex count, its vertices, its owner, its
// neighbour + 1 or 0.
const VERTEX_COUNT: usize = 0;

const FIRST_VERTEX: usize = 1;

const OWNER_WORD: usize = 9;

const NEIGHBOUR_WORD: usize = 10;

// Its floats.
const CENTRE_FLOATS: usize = 0;

const AREA_FLOAT: usize = 3;

const NORMAL_FLOATS: usize = 4;

const VECTOR_FLOATS: usize = 7;

// The words of a cell's record: where its two lists start, how many faces and how many neighbours
// they have; and its last float.
const LIST_START: usize = 1;

const FACE_COUNT: usize = 2;

const NEIGHBOUR_COUNT: usize = 3;

const VOLUME_FLOAT: usize = 3;

// How much the area holds: `slots` is the number of faces of all definitions counted singly,
// `faces` of those that stand in the table, `cells` of cells.
#[derive(Clone, Copy)]
pub struct Sizes {
    pub slots: usize,
    pub faces: usize,
    pub cells: usize,
}

// Point i of a case, read where it is.
pub fn point_at(case: &[u8], points: usize, i: usize) -> Vec3
    requires { (points ≤ most_points) × (24 * points ≤ length case.now) }
    ensures { result ≡ point_at (points_in case.now points) i }
{
    if i < points {
        arith::bytes::vec_at(case, 24 * i)
    } else {
        Vec3::new(0.0, 0.0, 0.0)
    }
}

// Word i of the first `end`.
fn word_in(words: &[u32], end: usize, i: usize) -> usize
    requires { end ≤ length words.now }
    ensures { (result ≡ get_or (take end words.now) i 0) × (result < 2^32) }
{
    if i < end { words[i] as usize } else { 0 }
}

// Float i of the first `end`.
fn float_in(floats: &[f64], end: usize, i: usize) -> f64
    requires { end ≤ length floats.now }
    ensures { result ≡ get_or (take end floats.now) i nan }
{
    if i < end { floats[i] } else { 0.0 / 0.0 }
}

// The three floats from i on, of the first `end`.
fn vec_in(floats: &[f64], end: usize, i: usize) -> Vec3
    requires { (end ≤ length floats.now) × (i ≤ 2^32) }
    ensures { result ≡ vec_from (take end floats.now) i }
{
    let x = float_in(floats, end, i);
    let y = float_in(floats, end, i + 1);
    let z = float_in(floats, end, i + 2);
    Vec3::new(x, y, z)
}

// Where the mesh's part of the words, and of the floats, ends.
fn words_end(s: Sizes) -> usize
    requires { (s.slots ≤ most_words) × (s.cells ≤ most_cells) }
    ensures { result ≡ Layout.words_end s }
{
    16 * s.slots + 8 * s.cells
}

fn floats_end(s: Sizes) -> usize
    requires { (s.slots ≤ most_words) × (s.cells ≤ most_cells) }
    ensures { result ≡ Layout.floats_end s }
{
    12 * s.slots + 4 * s.cells
}

// Word k of the record of face f, which there is.
fn face_word(words: &[u32], s: Sizes, f: usize, k: usize) -> usize
    requires { LentWords s words.now × (f < s.faces) × (k < 2^32) }
    ensures { (result ≡ get_or (mesh_words s words.now) (12 * f + k) 0) × (result < 2^32) }
{
    word_in(words, words_end(s), 12 * f + k)
}

// The three floats from k on of the record of face f, which there is.
fn face_vec(floats: &[f64], s: Sizes, f: usize, k: usize) -> Vec3
    requires { LentFloats s floats.now × (f < s.faces) × (k < 12) }
    ensures { result ≡ vec_from (mesh_floats s floats.now) (12 * f + k) }
{
    vec_in(floats, floats_end(s), 12 * f + k)
}

// How many vertices face f has.
pub fn vertex_count(words: &[u32], s: Sizes, f: usize) -> usize
    requires { LentWords s words.now }
    ensures { ((floats : List Float) → result ≡ length (face_at (faces_in s words.now floats) f).vertices)
        × (result < 2^32) }
{
    if f < s.faces {
        face_word(words, s, f, VERTEX_COUNT)
    } else {
        0
    }
}

// Vertex k of face f: a point's number.
pub fn vertex(words: &[u32], s: Sizes, f: usize, k: usize) -> usize
    requires { LentWords s words.now }
    ensures { ((floats : List Float) → result ≡ get_or (face_at (faces_in s words.now floats) f).vertices k 0)
        × (result < 2^32) }
{
    if f < s.faces && k < face_word(words, s, f, VERTEX_COUNT) {
        face_word(words, s, f, FIRST_VERTEX + k)
    } else {
        0
    }
}

// The cell that has face f first.
pub fn owner_of(words: &[u32], s: Sizes, f: usize) -> usize
    requires { LentWords s words.now }
    ensures { ((floats : List Float) → result ≡ (face_at (faces_in s words.now floats) f).owner)
        × (result < 2^32) }
{
    if f < s.faces {
        face_word(words, s, f, OWNER_WORD)
    } else {
        0
    }
}

// The cell on the other side of face f.
pub fn neighbour_of(words: &[u32], s: Sizes, f: usize) -> Option<usize>
    requires { LentWords s words.now }
    ensures { (floats : List Float) → result ≡ (face_at (faces_in s words.now floats) f).neighbour }
{
    if f < s.faces {
        let n = face_word(words, s, f, NEIGHBOUR_WORD);
        if n == 0 { None } else { Some(n - 1) }
    } else {
        None
    }
}

// The centre of face f.
pub fn face_centre(floats: &[f64], s: Sizes, f: usize) -> Vec3
    requires { LentFloats s floats.now }
    ensures { (words : List ℕ) → result ≡ (face_at (faces_in s words floats.now) f).centre }
{
    if f < s.faces {
        face_vec(floats, s, f, CENTRE_FLOATS)
    } else {
        Vec3::new(0.0, 0.0, 0.0)
    }
}

// The unit normal of face f, outward from its owner.
pub fn face_normal(floats: &[f64], s: Sizes, f: usize) -> Vec3
    requires { LentFloats s floats.now }
    ensures { (words : List ℕ) → result ≡ (face_at (faces_in s words floats.now) f).normal }
{
    if f < s.faces {
        face_vec(floats, s, f, NORMAL_FLOATS)
    } else {
        Vec3::new(0.0, 0.0, 0.0)
    }
}

// The area vector of face f.
pub fn area_vector(floats: &[f64], s: Sizes, f: usize) -> Vec3
    requires { LentFloats s floats.now }
    ensures { (words : List ℕ) → result ≡ (face_at (faces_in s words floats.now) f).area_vector }
{
    if f < s.faces {
        face_vec(floats, s, f, VECTOR_FLOATS)
    } else {
        Vec3::new(0.0, 0.0, 0.0)
    }
}

// The area of face f; in 2D its length.
pub fn face_area(floats: &[f64], s: Sizes, f: usize) -> f64
    requires { LentFloats s floats.now }
    ensures { (words : List ℕ) → result ≡ (face_at (faces_in s words floats.now) f).area }
{
    if f < s.faces {
        float_in(floats, floats_end(s), 12 * f + AREA_FLOAT)
    } else {
        0.0
    }
}

// Word k of the record of cell i, which there is.
fn cell_word(words: &[u32], s: Sizes, i: usize, k: usize) -> usize
    requires { LentWords s words.now × (i < s.cells) × (k < 8) }
    ensures { (result ≡ get_or (mesh_words s words.now) (16 * s.slots + 8 * i + k) 0) × (result < 2^32) }
{
    word_in(words, words_end(s), 16 * s.slots + 8 * i + k)
}

// How many faces cell i has.
pub fn face_count(words: &[u32], s: Sizes, i: usize) -> usize
    requires { LentWords s words.now }
    ensures { ((floats : List Float) → result ≡ length (cell_at (cells_in s words.now floats) i).faces)
        × (result < 2^32) }
{
    if i < s.cells {
        cell_word(words, s, i, FACE_COUNT)
    } else {
        0
    }
}

// Face k of cell i: its number.
pub fn cell_face(words: &[u32], s: Sizes, i: usize, k: usize) -> usize
    requires { LentWords s words.now }
    ensures { ((floats : List Float) → result ≡ get_or (cell_at (cells_in s words.now floats) i).faces k 0)
        × (result < 2^32) }
{
    if i < s.cells && k < cell_word(words, s, i, FACE_COUNT) {
        let first = cell_word(words, s, i, LIST_START);
        word_in(words, words_end(s), 13 * s.slots + first + k)
    } else {
        0
    }
}

// How many neighbours cell i has.
pub fn neighbour_count(words: &[u32], s: Sizes, i: usize) -> usize
    requires { LentWords s words.now }
    ensures { ((floats : List Float) → result ≡ length (cell_at (cells_in s words.now floats) i).neighbours)
        × (result < 2^32) }
{
    if i < s.cells {
        cell_word(words, s, i, NEIGHBOUR_COUNT)
    } else {
        0
    }
}

// Neighbour k of cell i, in face order.
pub fn neighbour(words: &[u32], s: Sizes, i: usize, k: usize) -> usize
    requires { LentWords s words.now }
    ensures { ((floats : List Float) → result ≡ get_or (cell_at (cells_in s words.now floats) i).neighbours k
        0) × (result < 2^32) }
{
    if i < s.cells && k < cell_word(words, s, i, NEIGHBOUR_COUNT) {
        let first = cell_word(words, s, i, LIST_START);
        word_in(words, words_end(s), 14 * s.slots + first + k)
    } else {
        0
    }
}

// The centre of cell i.
pub fn centre_of(floats: &[f64], s: Sizes, i: usize) -> Vec3
    requires { LentFloats s floats.now }
    ensures { (words : List ℕ) → result ≡ (cell_at (cells_in s words floats.now) i).centre }
{
    if i < s.cells {
        vec_in(floats, floats_end(s), 12 * s.slots + 4 * i)
    } else {
        Vec3::new(0.0, 0.0, 0.0)
    }
}

// The volume of cell i; in 2D its area.
pub fn volume_of(floats: &[f64], s: Sizes, i: usize) -> f64
    requires { LentFloats s floats.now }
    ensures { (words : List ℕ) → result ≡ (cell_at (cells_in s words floats.now) i).volume }
{
    if i < s.cells {
        float_in(floats, floats_end(s), 12 * s.slots + 4 * i + VOLUME_FLOAT)
    } else {
        0.0
    }
}
