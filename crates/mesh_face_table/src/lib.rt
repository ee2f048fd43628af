// The records of the face table in the lent area, and a face found by the chain of its bucket.
#![tactic(auto)]

ghost use Rattle.std.specs.Prelude.{◌≡◌, ◌+◌, ◌*◌, ◌≤◌, ◌<◌, length, get_or, set};
ghost use Rattle.std.proofs.lemmas.List.Edits.{sets};
ghost use Rattle.arith.specs.Lists as Lists;
ghost use Rattle.arith.specs.Lists.{sorted};
ghost use Rattle.mesh_face_table.specs.Records.{face_words_of, face_words_in, head_in, new_face_at, floats_of};
ghost use Rattle.mesh_face_table.specs.Chains.{last, key_at};
ghost use Rattle.mesh_face_table.specs.Ensures.{FindEntry};

use mesh_geometry::FaceGeometry;

// ---- one record of 12 words, of 12 floats

// Its numbers, sorted, are the key.
fn has_key(r: &[u32], key: &[u32]) -> bool
    requires { (length r.now ≡ 12) × (get_or r.now 0 0 ≤ 8) }
    ensures { result ≡ Lists.same (sorted (face_words_of r.now).vertices) key.now }
{
    let n = r[0] as usize;
    let end = 1 + n;
    let mut own = [0u32; 8];
    mesh_keys::sort_into(&mut own, &r[1..end]);
    mesh_keys::same(&own[..n], key)
}

// A new face of one cell.
fn put_face(r: &mut [u32], vertices: &[u32], cell: u32, link: u32)
    requires { (length r.old ≡ 12) × (length vertices.now ≤ 8) }
    ensures { r.new ≡ new_face_at r.old 0 vertices.now cell link }
{
    let n = vertices.len();
    r[0] = n as u32;
    r[1..1 + n].copy_from_slice(vertices);
    r[9] = cell;
    r[10] = 0;
    r[11] = link;
}

fn put_measured(r: &mut [f64], m: FaceGeometry)
    requires { length r.old ≡ 12 }
    ensures { r.new ≡ sets r.old 0 (floats_of m) }
{
    r[0] = m.centre.x;
    r[1] = m.centre.y;
    r[2] = m.centre.z;
    r[3] = m.area;
    r[4] = m.normal.x;
    r[5] = m.normal.y;
    r[6] = m.normal.z;
    r[7] = m.area_vector.x;
    r[8] = m.area_vector.y;
    r[9] = m.area_vector.z;
}

// ---- the records of the area

// Face f, of one cell.
pub fn store_face(words: &mut [u32], f: usize, vertices: &[u32], cell: u32, link: u32)
    requires { (12 * f + 12 ≤ length words.old) × (length vertices.now ≤ 8) }
    ensures { words.new ≡ new_face_at words.old (12 * f) vertices.now cell link }
{
    let s = 12 * f;
    let e = s + 12;
    put_face(&mut words[s..e], vertices, cell, link);
}

// The second cell of face f, + 1.
pub fn store_neighbour(words: &mut [u32], f: usize, other: u32)
    requires { 12 * f + 12 ≤ length words.old }
    ensures { words.new ≡ set words.old (12 * f + 10) other }
{
    words[12 * f + 10] = other;
}

// What was measured of face f.
pub fn store_measured(floats: &mut [f64], f: usize, m: FaceGeometry)
    requires { 12 * f + 12 ≤ length floats.old }
    ensures { floats.new ≡ sets floats.old (12 * f) (floats_of m) }
{
    let s = 12 * f;
    let e = s + 12;
    put_measured(&mut floats[s..e], m);
}

// The last face of bucket b, + 1, or 0.
pub fn store_head(words: &mut [u32], slots: usize, b: usize, head: u32)
    requires { 12 * slots + b < length words.old }
    ensures { words.new ≡ set words.old (12 * slots + b) head }
{
    words[12 * slots + b] = head;
}

// The second cell of face f, + 1, or 0.
pub fn neighbour_word(words: &[u32], f: usize) -> u32
    requires { 12 * f + 12 ≤ length words.now }
    ensures { result ≡ (face_words_in words.now f).neighbour }
{
    words[12 * f + 10]
}

// The face before f in its bucket, + 1, or 0.
fn link_of(words: &[u32], f: usize) -> u32
    requires { 12 * f + 12 ≤ length words.now }
    ensures { result ≡ (face_words_in words.now f).link }
{
    words[12 * f + 11]
}

// The last face of bucket b, + 1, or 0.
pub fn head_of(words: &[u32], slots: usize, b: usize) -> u32
    requires { 12 * slots + b < length words.now }
    ensures { result ≡ head_in words.now slots b }
{
    words[12 * slots + b]
}

// ---- the chains

// The last face with this key, + 1; 0 where there is none.
fn walk(words: &[u32], slots: usize, n: usize, key: &[u32]) -> usize
    requires { FindEntry words.now slots n key.now }
    ensures { result ≡ last (key_at (face_words_in words.now) key.now) n }
{
    let b = mesh_keys::sum(key) % slots;
    let mut at = head_of(words, slots, b) as usize;
    // No `for`: which face is next stands in the record of this one.
    while at != 0 {
        let f = at - 1;
        let s = 12 * f;
        let e = s + 12;
        if has_key(&words[s..e], key) {
            return at;
        }
        at = link_of(words, f) as usize;
    }
    0
}

// The number + 1 of the face with these numbers, in any order; 0 where there is none.
pub fn find(words: &[u32], slots: usize, n: usize, vertices: &[u32]) -> usize
    requires { FindEntry words.now slots n vertices.now }
    ensures { (result ≡ last (key_at (face_words_in words.now) (sorted vertices.now)) n)
        × (result ≤ n) }
{
    let k = vertices.len();
    let mut key = [0u32; 8];
    mesh_keys::sort_into(&mut key, vertices);
    walk(words, slots, n, &key[..k])
}
