// Definition words that stand in a slice of u32, walked record by record: the refusal of the words
// is the one of a case's bytes. The functions that end in _end answer the position after what stands
// at a position.
#![tactic(auto)]

ghost use Rattle.std.specs.Prelude.{◌≡◌, true, ◌+◌, ◌*◌, ◌≤◌, length, drop};
ghost use Rattle.case_definitions.specs.Definitions.{numbers, counted, face_lists, definition, definitions};
ghost use Rattle.case_definitions.specs.Faces.{face_count};
ghost use Rattle.case_definitions.specs.Ensures.{skipped, definition_at, Looks, RunExit};
ghost use Rattle.case_records.specs.Ensures.{checked};

use refusal::Refusal;

// After n words.
fn numbers_end(words: &[u32], at: usize, n: usize) -> Result<usize, Refusal>
    requires { at ≤ length words.now }
    ensures { result ≡ skipped words.now (numbers n (drop at words.now)) }
{
    if words.len() - at < n {
        return Err(Refusal::WrongDefinitions);
    }
    Ok(at + n)
}

// After a count of at most `limit` and as many words.
fn list_end(words: &[u32], at: usize, limit: usize) -> Result<usize, Refusal>
    ensures { result ≡ skipped words.now (counted limit numbers (drop at words.now)) }
{
    if words.len() <= at {
        return Err(Refusal::WrongDefinitions);
    }
    let n = words[at] as usize;
    if limit < n {
        return Err(Refusal::WrongDefinitions);
    }
    numbers_end(words, at + 1, n)
}

// After n faces of a polyhedron.
fn skip_faces(words: &[u32], first: usize, n: usize) -> Result<usize, Refusal>
    requires { first ≤ length words.now }
    ensures { result ≡ skipped words.now (face_lists n (drop first words.now)) }
{
    let mut at = first;
    for _ in 0..n {
        at = list_end(words, at, 8)?;
    }
    Ok(at)
}

// After a face count of at most 24 and as many faces.
fn faces_end(words: &[u32], at: usize) -> Result<usize, Refusal>
    ensures { result ≡ skipped words.now (counted 24 face_lists (drop at words.now)) }
{
    if words.len() <= at {
        return Err(Refusal::WrongDefinitions);
    }
    let n = words[at] as usize;
    if 24 < n {
        return Err(Refusal::WrongDefinitions);
    }
    skip_faces(words, at + 1, n)
}

// After the record at a position.
fn record_end(words: &[u32], at: usize) -> Result<usize, Refusal>
    ensures { result ≡ skipped words.now (definition (drop at words.now)) }
{
    if words.len() <= at {
        return Err(Refusal::WrongDefinitions);
    }
    match words[at] {
        0 => list_end(words, at + 1, 24),
        1 => numbers_end(words, at + 1, 4),
        2 => numbers_end(words, at + 1, 8),
        3 => numbers_end(words, at + 1, 6),
        4 => numbers_end(words, at + 1, 5),
        5 => faces_end(words, at + 1),
        6..=0xffff_ffff => Err(Refusal::WrongDefinitions),
    }
}

// Whether the record at p looks like the one at `from`: it has its kind word and, where it is a
// polygon, its count.
fn looks_like(words: &[u32], from: usize, size: usize, p: usize) -> bool
    requires { (from + size ≤ length words.now) × (2 ≤ size) × (p + size ≤ length words.now) }
    ensures { result ≡ true → Looks words.now from size p }
{
    words[p] == words[from] && (words[from] != 0 || words[p + 1] == words[from + 1])
}

// How many records of `size` words there is room for in `room` words, at most `left`.
fn room_for(left: usize, room: usize, size: usize) -> usize
    requires { 2 ≤ size }
    ensures { (result ≤ left) × (result * size ≤ room) }
{
    left.min(room / size)
}

// How many records from `at` on, at most `left`, look like the one from `from` to `at`; 0 for a
// polyhedron. They are right, and as long.
fn run(words: &[u32], from: usize, at: usize, left: usize) -> usize
    requires { Ok at ≡ skipped words.now (definition (drop from words.now)) }
    ensures { RunExit words.now from at left
        (face_count (definition_at words.now from)) result }
{
    let size = at - from;
    if size < 2 || words[from] > 4 {
        return 0;
    }
    let most = room_for(left, words.len() - at, size);
    let mut p = at;
    for k in 0..most {
        if !looks_like(words, from, size, p) {
            return k;
        }
        p += size;
    }
    most
}

// The same, but 0 while there is a wait.
fn run_after(wait: usize, words: &[u32], from: usize, at: usize, left: usize) -> usize
    requires { Ok at ≡ skipped words.now (definition (drop from words.now)) }
    ensures { RunExit words.now from at left
        (face_count (definition_at words.now from)) result }
{
    if wait > 0 {
        return 0;
    }
    run(words, from, at, left)
}

// How many records to read singly before the next run is looked for: eight after one of none, since
// a look that finds nothing costs more than a record.
fn wait_after(wait: usize, records: usize) -> usize
    requires { wait ≤ 8 }
    ensures { result ≤ 8 }
{
    if records > 0 {
        return 0;
    }
    if wait > 0 {
        return wait - 1;
    }
    8
}

// The words are exactly as many records as there are cells; or refusal 3.
pub fn walk(words: &[u32], cells: usize) -> Result<(), Refusal>
    ensures { result ≡ checked (definitions cells words.now) }
{
    let mut at = 0;
    let mut i = 0;
    let mut wait = 0;
    // No `for`: a turn passes over a record and all that look like it.
    while i < cells {
        let next = record_end(words, at)?;
        let records = run_after(wait, words, at, next, cells - i - 1);
        wait = wait_after(wait, records);
        at = next + records * (next - at);
        i += records + 1;
    }
    if at < words.len() {
        return Err(Refusal::WrongDefinitions);
    }
    Ok(())
}
