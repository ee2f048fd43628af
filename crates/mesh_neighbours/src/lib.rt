// The cells' neighbour lists, over the mesh in the lent work area.
#![tactic(auto)]

ghost use Rattle.std.specs.Prelude.{◌≡◌, ◌+◌, ◌*◌, ◌≤◌, ◌<◌, eqb, length};
ghost use Rattle.arith.specs.Limits.{2^32};
ghost use Rattle.arith.specs.Lists.{any_of};
ghost use Rattle.mesh_area.specs.Layout.{list_at, LentWords};
ghost use Rattle.mesh_neighbours.specs.Neighbours.{first_in};
ghost use Rattle.mesh_neighbours.specs.Ensures.{CellLists, FillNeighboursExit, BeyondExit, AddNewExit, AddBeyondExit, ListAtExit, FillCellExit};

use arith::number::narrow;
use mesh_area::Sizes;

// The cell on the other side of face f, seen from one of its cells.
fn beyond(words: &[u32], s: Sizes, cell: usize, f: usize) -> Option<usize>
    requires { LentWords s words.now }
    ensures { BeyondExit s words.now cell f result }
{
    let n = mesh_area::neighbour_of(words, s, f)?;
    let owner = mesh_area::owner_of(words, s, f);
    if owner == cell {
        return Some(n);
    }
    Some(owner)
}

// d is one of the n words at a place.
fn listed(words: &[u32], at: usize, n: usize, d: usize) -> bool
    requires { (at + n ≤ length words.now) × (n < 2^32) }
    ensures { result ≡ any_of (eqb d) (list_at words.now at n) }
{
    words[at..at + n].iter().any(|x| d == *x as usize)
}

// Adds d to the list of n words at a place, unless it is there; how many words it has then.
fn add_new(words: &mut [u32], at: usize, n: usize, d: usize) -> usize
    requires { (at + n < length words.old) × (n < 2^32) × (d < 2^32) }
    ensures { AddNewExit words.old words.new at n d result }
{
    if listed(words, at, n, d) {
        return n;
    }
    words[at + n] = narrow(d);
    n + 1
}

// Adds the cell beyond face f.
fn add_beyond(words: &mut [u32], s: Sizes, cell: usize, f: usize, at: usize, n: usize) -> usize
    requires { LentWords s words.old × (at + n < length words.old) × (n < 2^32) }
    ensures { AddBeyondExit s words.old words.new cell f at n result }
{
    let Some(d) = beyond(words, s, cell, f) else {
        return n;
    };
    add_new(words, at, n, d)
}

// Writes the list of cell i at a place, over its faces; how many words it has.
fn list_at(words: &mut [u32], s: Sizes, i: usize, at: usize) -> usize
    requires { LentWords s words.old × CellLists s words.old × (i < s.cells)
        × (at ≡ 14 * s.slots + first_in s words.old i) }
    ensures { ListAtExit s words.old words.new i at result }
{
    let end = mesh_area::face_count(words, s, i);
    let mut n = 0;
    for k in 0..end {
        let f = mesh_area::cell_face(words, s, i, k);
        n = add_beyond(words, s, i, f, at, n);
    }
    n
}

// Writes the list of cell i, and its count.
fn fill_cell(words: &mut [u32], s: Sizes, i: usize)
    requires { LentWords s words.old × CellLists s words.old × (i < s.cells) }
    ensures { FillCellExit s words.old words.new i }
{
    let at = 16 * s.slots + 8 * i;
    let first = words[at + 1] as usize;
    let n = list_at(words, s, i, 14 * s.slots + first);
    words[at + 3] = narrow(n);
}

// Writes each cell's neighbours, in face order.
pub fn fill_neighbours(words: &mut [u32], s: Sizes)
    requires lent_words { LentWords s words.old }
    requires cell_lists { CellLists s words.old }
    ensures { FillNeighboursExit s words.old words.new }
{
    for i in 0..s.cells {
        fill_cell(words, s, i);
    }
}
