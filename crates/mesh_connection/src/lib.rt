// Whether the cells are connected, over the mesh in the lent work area.
#![tactic(auto)]

ghost use Rattle.std.specs.Prelude.{◌≡◌, false, ◌+◌, ◌*◌, ◌≤◌, ◌<◌, length};
ghost use Rattle.arith.specs.Limits.{2^32};
ghost use Rattle.mesh_area.specs.Layout.{words_end, LentWords};
ghost use Rattle.mesh_connection.specs.Ensures.{visited_in, queue_in, ClearExit, MarkExit, MeetExit, SearchState, EnsureConnectedExit};

use arith::number::narrow;
use mesh_area::Sizes;

fn visited(words: &[u32], base: usize, i: usize) -> bool
    requires { base + 2 * i < length words.now }
    ensures { result ≡ visited_in words.now base i }
{
    words[base + 2 * i] == 1
}

fn queue_at(words: &[u32], base: usize, k: usize) -> usize
    requires { base + 2 * k + 1 < length words.now }
    ensures { (result ≡ queue_in words.now base k) × (result < 2^32) }
{
    words[base + 2 * k + 1] as usize
}

// Cell d is visited, and goes to the queue's end.
fn mark(words: &mut [u32], base: usize, d: usize, tail: usize)
    requires { (base + 2 * d + 2 ≤ length words.old) × (base + 2 * tail + 2 ≤ length words.old)
        × (d < 2^32) }
    ensures { MarkExit words.old words.new base d tail }
{
    words[base + 2 * d] = 1;
    words[base + 2 * tail + 1] = narrow(d);
}

// Cell d goes to the queue's end, unless it was visited; the queue's new end.
fn meet(words: &mut [u32], base: usize, n: usize, d: usize, tail: usize) -> usize
    requires n_in_bounds { (base + 2 * n ≤ length words.old) × (n < 2^32) × (tail < 2^32) }
    requires tail_lt_n { d < n → visited_in words.old base d ≡ false → tail < n }
    ensures { MeetExit words.old words.new base n d tail result }
{
    if d >= n || visited(words, base, d) {
        return tail;
    }
    mark(words, base, d, tail);
    tail + 1
}

// Visits the neighbours of the cell at the queue's head; the queue's new end.
fn spread(words: &mut [u32], s: Sizes, base: usize, head: usize, tail: usize) -> usize
    requires { LentWords s words.old × SearchState s words.old words.old base head tail × (head < tail) }
    ensures { SearchState s words.old words.new base (head + 1) result }
{
    let c = queue_at(words, base, head);
    let end = mesh_area::neighbour_count(words, s, c);
    let mut last = tail;
    for m in 0..end {
        let d = mesh_area::neighbour(words, s, c, m);
        last = meet(words, base, s.cells, d, last);
    }
    last
}

// No cell is visited.
fn clear(words: &mut [u32], base: usize, n: usize)
    requires { base + 2 * n ≤ length words.old }
    ensures { ClearExit words.old words.new base n }
{
    for i in 0..n {
        words[base + 2 * i] = 0;
    }
}

// Cell 0 alone is visited, and stands in the queue.
fn start(words: &mut [u32], s: Sizes, base: usize)
    requires { LentWords s words.old × (base ≡ words_end s) × (0 < s.cells) }
    ensures { SearchState s words.old words.new base 0 1 }
{
    clear(words, base, s.cells);
    mark(words, base, 0, 0);
}

// Visits all that can be reached from cell 0; how many cells that are.
fn reach(words: &mut [u32], s: Sizes, base: usize) -> usize
    requires { LentWords s words.old × SearchState s words.old words.old base 0 1 }
    ensures { SearchState s words.old words.new base result result }
{
    let mut tail = 1;
    let mut head = 0;
    // No `for`: the queue grows while it is walked.
    while head < tail {
        tail = spread(words, s, base, head, tail);
        head += 1;
    }
    tail
}

// Every cell is connected with cell 0.
pub fn ensure_connected(words: &mut [u32], s: Sizes) -> bool
    requires { LentWords s words.old }
    ensures { EnsureConnectedExit s words.old words.new result }
{
    if s.cells <= 1 {
        return true;
    }
    let base = 16 * s.slots + 8 * s.cells;
    start(words, s, base);
    reach(words, s, base) == s.cells
}
