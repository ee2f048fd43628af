// The definition words of a case, and the walker over them. They are read where they stand in the case
// bytes.
#![tactic(auto)]

pub mod walker;

// A position among the definition words.
#[derive(Clone, Copy)]
pub struct Cursor {
    pub at: usize,
}

// A record of the definition words: its kind word stands at `at`, its point numbers, or a
// polyhedron's faces, from `first` on.
#[derive(Clone, Copy)]
pub struct Head {
    pub kind: u32,
    pub faces: usize,
    pub at: usize,
    pub first: usize,
}
