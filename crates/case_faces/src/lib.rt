// The faces of a record of the definition words, one after another.
#![tactic(auto)]

ghost use Rattle.std.specs.Prelude.{◌≡◌, [], ◌∷◌, ◌+◌, ◌≤◌, ◌<◌, length, get_or};
ghost use Rattle.arith.specs.Lists.{after};
ghost use Rattle.arith.specs.Records.{puts};
ghost use Rattle.case_file.specs.Trailer.{words_in};
ghost use Rattle.case_definitions.specs.Faces as Faces;
ghost use Rattle.case_faces.specs.Ensures.{AtFace, CopyFaceExit, places_of, table_of};

use case_definitions::{Head, walker};

// A face of a solid: its places among the cell's point numbers.
#[derive(Clone, Copy)]
enum Places {
    Three(usize, usize, usize),
    Four(usize, usize, usize, usize),
}

// A face of a record, by its number; `at` is where a polyhedron's face starts.
#[derive(Clone, Copy)]
pub struct FaceCursor {
    pub face: usize,
    pub at: usize,
}

// A face's point numbers were copied: how many, and the next face.
#[derive(Clone, Copy)]
pub struct Copied {
    pub count: usize,
    pub next: FaceCursor,
}

// ---- the face tables of mesh.rs, a row to a face: its places among the cell's point numbers

fn tetrahedron(face: usize) -> Places
    requires { face < 4 }
    ensures { places_of result ≡ get_or Faces.tetrahedron face [] }
{
    match face {
        0 => Places::Three(0, 2, 1),
        1 => Places::Three(0, 1, 3),
        2 => Places::Three(1, 2, 3),
        3.. => Places::Three(2, 0, 3),
    }
}

fn hexahedron(face: usize) -> Places
    requires { face < 6 }
    ensures { places_of result ≡ get_or Faces.hexahedron face [] }
{
    match face {
        0 => Places::Four(0, 3, 2, 1),
        1 => Places::Four(4, 5, 6, 7),
        2 => Places::Four(0, 1, 5, 4),
        3 => Places::Four(1, 2, 6, 5),
        4 => Places::Four(2, 3, 7, 6),
        5.. => Places::Four(3, 0, 4, 7),
    }
}

fn prism(face: usize) -> Places
    requires { face < 5 }
    ensures { places_of result ≡ get_or Faces.prism face [] }
{
    match face {
        0 => Places::Three(0, 2, 1),
        1 => Places::Three(3, 4, 5),
        2 => Places::Four(0, 1, 4, 3),
        3 => Places::Four(1, 2, 5, 4),
        4.. => Places::Four(2, 0, 3, 5),
    }
}

fn pyramid(face: usize) -> Places
    requires { face < 5 }
    ensures { places_of result ≡ get_or Faces.pyramid face [] }
{
    match face {
        0 => Places::Four(0, 3, 2, 1),
        1 => Places::Three(0, 1, 4),
        2 => Places::Three(1, 2, 4),
        3 => Places::Three(2, 3, 4),
        4.. => Places::Three(3, 0, 4),
    }
}

// ---- the faces of a record

// The first face of a record.
pub fn first_face(h: Head) -> FaceCursor
    ensures { (result.face ≡ 0) × (result.at ≡ h.first) }
{
    FaceCursor {
        face: 0,
        at: h.first,
    }
}

// The place after k, of n in a round.
fn place_after(n: usize, k: usize) -> usize
    requires { k < n }
    ensures { (result ≡ after n k) × (result < n) }
{
    if k + 1 == n { 0 } else { k + 1 }
}

// Face c of h, which is no polyhedron, was copied with its n point numbers: the next face has no place of its own.
fn passed(n: usize, h: Head, c: FaceCursor) -> Copied
    requires { c.face < h.faces }
    ensures { result ≡ record { count = n; next = record { face = c.face + 1; at = c.at } } }
{
    Copied {
        count: n,
        next: FaceCursor {
            face: c.face + 1,
            at: c.at,
        },
    }
}

// The number at a place among a record's point numbers.
fn number_at(words: &[u8], first: usize, place: usize) -> u32
    requires { first + place < length (words_in words.now) }
    ensures { result ≡ get_or (words_in words.now) (first + place) 0 }
{
    walker::word(words, first + place)
}

// A polygon's side: its two ends.
fn copy_side(words: &[u8], h: Head, c: FaceCursor, out: &mut [u32; 8]) -> Copied
    requires { AtFace (words_in words.now) h c × (c.face < h.faces) × (length out.old ≡ 8)
        × (h.kind ≡ 0) }
    ensures { CopyFaceExit (words_in words.now) h c out.old out.new
        result.count result.next }
{
    out[0] = number_at(words, h.first, c.face);
    out[1] = number_at(words, h.first, place_after(h.faces, c.face));
    passed(2, h, c)
}

// The numbers at three places.
fn copy_three(words: &[u8], first: usize, i: usize, j: usize, k: usize, out: &mut [u32; 8])
    requires { (first + i < length (words_in words.now)) × (first + j < length (words_in words.now))
        × (first + k < length (words_in words.now)) × (length out.old ≡ 8) }
    ensures { out.new ≡ puts out.old 0 (get_or (words_in words.now) (first + i) 0
        ∷ get_or (words_in words.now) (first + j) 0 ∷ get_or (words_in words.now) (first + k) 0
        ∷ []) }
{
    out[0] = number_at(words, first, i);
    out[1] = number_at(words, first, j);
    out[2] = number_at(words, first, k);
}

// A face of a solid: the numbers at its places.
fn copy_places(words: &[u8], h: Head, c: FaceCursor, p: Places, out: &mut [u32; 8]) -> Copied
    requires { AtFace (words_in words.now) h c × (c.face < h.faces) × (length out.old ≡ 8)
        × (1 ≤ h.kind) × (h.kind ≤ 4) × (places_of p ≡ get_or (table_of h.kind) c.face []) }
    ensures { CopyFaceExit (words_in words.now) h c out.old out.new
        result.count result.next }
{
    match p {
        Places::Three(i, j, k) => {
            copy_three(words, h.first, i, j, k, out);
            passed(3, h, c)
        }
        Places::Four(i, j, k, l) => {
            copy_three(words, h.first, i, j, k, out);
            out[3] = number_at(words, h.first, l);
            passed(4, h, c)
        }
    }
}

// A polyhedron's face: a count and its numbers.
fn copy_list(words: &[u8], h: Head, c: FaceCursor, out: &mut [u32; 8]) -> Copied
    requires { AtFace (words_in words.now) h c × (c.face < h.faces) × (length out.old ≡ 8)
        × (h.kind ≡ 5) }
    ensures { CopyFaceExit (words_in words.now) h c out.old out.new
        result.count result.next }
{
    let count = walker::word(words, c.at) as usize;
    for j in 0..count {
        out[j] = walker::word(words, c.at + 1 + j);
    }
    Copied {
        count,
        next: FaceCursor {
            face: c.face + 1,
            at: c.at + 1 + count,
        },
    }
}

// Copies the point numbers of a face to the front of `out`. A record has none of the kinds from 6 on.
pub fn copy_face(words: &[u8], h: Head, c: FaceCursor, out: &mut [u32; 8]) -> Copied
    requires { AtFace (words_in words.now) h c × (c.face < h.faces) × (length out.old ≡ 8) }
    ensures { CopyFaceExit (words_in words.now) h c out.old out.new
        result.count result.next }
{
    match h.kind {
        0 => copy_side(words, h, c, out),
        1 => copy_places(words, h, c, tetrahedron(c.face), out),
        2 => copy_places(words, h, c, hexahedron(c.face), out),
        3 => copy_places(words, h, c, prism(c.face), out),
        4 => copy_places(words, h, c, pyramid(c.face), out),
        5 => copy_list(words, h, c, out),
        6..=0xffff_ffff => passed(0, h, c),
    }
}
