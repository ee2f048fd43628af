// The walker over the definition words, which are the bytes `words`. `step` and `word_at` do the
// work, on a position by value; `start`, `past`, `head` and `word_of` are thin functions over a
// struct that holds the words and a position. Definitions are read by `record_at` and `word`.
ghost use Rattle.std.specs.Prelude.{◌≡◌, true, ◌+◌, ◌-◌, ◌*◌, ◌≤◌, ◌<◌, length, get_or, drop};
ghost use Rattle.arith.specs.Records.{part};
ghost use Rattle.case_file.specs.Trailer.{words_from, words_in};
ghost use Rattle.case_definitions.specs.Definitions.{definitions, face_lists};
ghost use Rattle.case_definitions.specs.Ensures.{step_at, walked};
ghost use Rattle.case_definitions.specs.Ensures as Ensures;

use crate::{Cursor, Head};
use arith::bytes;
use case_file::Counts;
use refusal::Refusal;

// The definition words, from a position on.
#[derive(Clone, Copy)]
struct Walker<'a> {
    words: &'a [u8],
    at: usize,
}

// The bytes of a case's definition words.
pub fn words(case: &[u8], n: Counts) -> &[u8]
    requires { words_from n + 4 * n.words ≤ length case.now }
    ensures { result.now ≡ part case.now (words_from n) (4 * n.words) }
{
    let start = 24 * n.points;
    let end = start + 4 * n.words;
    &case[start..end]
}

// The number of words.
fn total(words: &[u8]) -> usize
    ensures { (result ≡ length (words_in words.now)) × (result < 4611686018427387904) }
{
    words.len() / 4
}

// The word at a position.
fn word_at(words: &[u8], at: usize) -> u32
    requires { at < length (words_in words.now) }
    ensures { result ≡ get_or (words_in words.now) at 0 }
{
    bytes::word_at(words, 4 * at)
}

// A count of at most `limit` at a position, with as many words after it.
fn list_at(words: &[u8], at: usize, limit: usize) -> Option<usize>
    ensures { result ≡ Ensures.list_at (words_in words.now) at limit }
{
    let all = total(words);
    if all <= at {
        return None;
    }
    let n = word_at(words, at) as usize;
    if limit < n {
        return None;
    }
    if all - at - 1 < n {
        return None;
    }
    Some(n)
}

// A polygon: a count of at most 24, then its numbers.
fn polygon(words: &[u8], at: usize) -> Result<(Head, Cursor), Refusal>
    requires { Ensures.KindAt (words_in words.now) at 0 }
    ensures { result ≡ step_at (words_in words.now) at }
{
    let n = list_at(words, at + 1, 24).ok_or(Refusal::WrongDefinitions)?;
    Ok((
        Head {
            kind: 0,
            faces: n,
            at,
            first: at + 2,
        },
        Cursor { at: at + 2 + n },
    ))
}

// A solid: its numbers.
fn solid(
    words: &[u8],
    at: usize,
    kind: u32,
    numbers: usize,
    faces: usize,
) -> Result<(Head, Cursor), Refusal>
    requires { Ensures.SolidAt (words_in words.now) at kind numbers faces }
    ensures { result ≡ step_at (words_in words.now) at }
{
    if total(words) - at - 1 < numbers {
        return Err(Refusal::WrongDefinitions);
    }
    Ok((
        Head {
            kind,
            faces,
            at,
            first: at + 1,
        },
        Cursor {
            at: at + 1 + numbers,
        },
    ))
}

// The position after n faces of a polyhedron.
fn skip_faces(words: &[u8], first: usize, n: usize) -> Result<usize, Refusal>
    requires { first ≤ length (words_in words.now) }
    ensures { result ≡ Ensures.skipped (words_in words.now)
        (face_lists n (drop first (words_in words.now))) }
{
    let mut at = first;
    for _ in 0..n {
        let count = list_at(words, at, 8).ok_or(Refusal::WrongDefinitions)?;
        at += 1 + count;
    }
    Ok(at)
}

// A polyhedron: a face count of at most 24, then its faces.
fn polyhedron(words: &[u8], at: usize) -> Result<(Head, Cursor), Refusal>
    requires { Ensures.KindAt (words_in words.now) at 5 }
    ensures { result ≡ step_at (words_in words.now) at }
{
    let all = total(words);
    if all <= at + 1 {
        return Err(Refusal::WrongDefinitions);
    }
    let n = word_at(words, at + 1) as usize;
    if 24 < n {
        return Err(Refusal::WrongDefinitions);
    }
    let next = skip_faces(words, at + 2, n)?;
    Ok((
        Head {
            kind: 5,
            faces: n,
            at,
            first: at + 2,
        },
        Cursor { at: next },
    ))
}

// The record at a cursor, and the cursor after it.
fn step(words: &[u8], c: Cursor) -> Result<(Head, Cursor), Refusal>
    ensures { result ≡ step_at (words_in words.now) c.at }
{
    let at = c.at;
    if total(words) <= at {
        return Err(Refusal::WrongDefinitions);
    }
    match word_at(words, at) {
        0 => polygon(words, at),
        1 => solid(words, at, 1, 4, 4),
        2 => solid(words, at, 2, 8, 6),
        3 => solid(words, at, 3, 6, 5),
        4 => solid(words, at, 4, 5, 5),
        5 => polyhedron(words, at),
        6..=0xffff_ffff => Err(Refusal::WrongDefinitions),
    }
}

// A walker at the start of the words.
fn start<'a>(words: &'a [u8]) -> Walker<'a>
    ensures { (result.words ≡ words.entry) × (result.at ≡ 0) }
{
    Walker { words, at: 0 }
}

// The walker past all that stands before a cursor, such as the record that was read.
fn past<'a>(w: Walker<'a>, next: Cursor) -> Walker<'a>
    ensures { (result.words ≡ w.entry.words) × (result.at ≡ next.at) }
{
    Walker {
        words: w.words,
        at: next.at,
    }
}

// The record at a walker, and the cursor after it.
fn head<'a>(w: Walker<'a>) -> Result<(Head, Cursor), Refusal>
    ensures { result ≡ step_at (words_in w.entry.words.now) w.entry.at }
{
    step(w.words, Cursor { at: w.at })
}

// The record at a cursor, and the cursor after it, read through a walker.
pub fn record_at(words: &[u8], c: Cursor) -> Result<(Head, Cursor), Refusal>
    ensures { result ≡ step_at (words_in words.now) c.at }
{
    head(past(start(words), c))
}

// The word at a walker.
fn word_of<'a>(w: Walker<'a>) -> u32
    requires { w.at < length (words_in w.words.now) }
    ensures { result ≡ get_or (words_in w.entry.words.now) w.entry.at 0 }
{
    word_at(w.words, w.at)
}

// The word at a position, read through a walker.
pub fn word(words: &[u8], at: usize) -> u32
    requires { at < length (words_in words.now) }
    ensures { result ≡ get_or (words_in words.now) at 0 }
{
    word_of(past(start(words), Cursor { at }))
}

// The record at p has the kind word of the one with the head h, which ends at `at`, and a polygon
// its count.
fn looks_like(words: &[u8], h: Head, at: usize, p: usize) -> bool
    requires { Ensures.HeadTo (words_in words.now) h at × (h.kind ≤ 4) × (p ≤ length (words_in words.now)) }
    ensures { result ≡ true → Ensures.Looks (words_in words.now) h.at (at - h.at) p }
{
    at - h.at <= total(words) - p
        && word_at(words, p) == h.kind
        && (0 < h.kind || word_at(words, p + 1) as usize == h.faces)
}

// How many records from `at` on, at most `left`, look like the one with the head h, which ends
// there. They are not counted where it is a polyhedron.
fn run(words: &[u8], h: Head, at: usize, left: usize) -> usize
    requires { Ensures.HeadTo (words_in words.now) h at }
    ensures { Ensures.RunExit (words_in words.now) h.at at left h.faces result }
{
    if 4 < h.kind {
        return 0;
    }
    let mut p = at;
    for k in 0..left {
        if !looks_like(words, h, at, p) {
            return k;
        }
        p += at - h.at;
    }
    left
}

// The same, where it is time to look: where `wait` is 0.
fn run_if(wait: usize, words: &[u8], h: Head, at: usize, left: usize) -> usize
    requires { Ensures.HeadTo (words_in words.now) h at }
    ensures { Ensures.RunExit (words_in words.now) h.at at left h.faces result }
{
    if 0 < wait {
        return 0;
    }
    run(words, h, at, left)
}

// How many records to read singly before the next look, where the last one found k.
fn next_wait(wait: usize, k: usize) -> usize {
    if 0 < wait {
        return wait - 1;
    }
    if k < 4 {
        return 8;
    }
    0
}

// The number of faces of all records, which are exactly as many as the cells; or refusal 3.
pub fn walk(words: &[u8], cells: usize) -> Result<usize, Refusal>
    ensures { result ≡ walked (definitions cells (words_in words.now)) }
{
    let mut at = 0;
    let mut faces = 0;
    let mut i = 0;
    let mut wait = 0;
    // No `for`: a turn passes over a record and all that look like it.
    while i < cells {
        let (head, next) = record_at(words, Cursor { at })?;
        let k = run_if(wait, words, head, next.at, cells - i - 1);
        faces += head.faces * (k + 1);
        at = next.at + k * (next.at - head.at);
        i += k + 1;
        wait = next_wait(wait, k);
    }
    if at < total(words) {
        return Err(Refusal::WrongDefinitions);
    }
    Ok(faces)
}
