// The bins of a grid, and the lowest cell that contains a point, of those listed in its bin or of all:
// `locate_cell`. The polygons stand in the lent work area.
#![tactic(auto)]

ghost use Rattle.std.specs.Prelude.{◌≡◌, ◌+◌, ◌*◌, ◌%◌, ◌<◌, ◌≤◌, length, List, Float, true, not};
ghost use Rattle.arith.specs.Limits.{most_cells, most_words, most_bins};
ghost use Rattle.arith.specs.F64.{finite, ofℕ, floorℕ};
ghost use Rattle.mesh_area.specs.Layout.{words_end, LentWords, LentFloats};
ghost use Rattle.lines_bins.specs.Index as Index;
ghost use Rattle.lines_bins.specs.Index.{flag_in, head_in};
ghost use Rattle.lines_bins.specs.Ensures.{BinIndex};
ghost use Rattle.lines_polygon.specs.Contains.{position};
ghost use Rattle.lines_polygon.specs.Extent.{limits_from, misses};
ghost use Rattle.lines_locate.specs.Bins as Bins;
ghost use Rattle.lines_locate.specs.Ranges as Ranges;
ghost use Rattle.lines_locate.specs.declared.Search.TheVariants as Variants;
ghost use Rattle.lines_locate.specs.Ensures.{HasBins};
ghost use Rattle.lines_locate.specs.Locate as Locate;
ghost use Rattle.lines_locate.specs.Layout as Layout;
ghost use Rattle.lines_locate.specs.Ensures as Ensures;

use arith::number::wide;
use arith::{Vec2, Vec3, float};
use lines_polygon::{Position, extent};
use mesh_area::Sizes;

// A bin, or the number of bins each way.
#[derive(Clone, Copy)]
pub struct Bin {
    pub x: usize,
    pub y: usize,
}

// The smallest box about some points.
#[derive(Clone, Copy)]
pub struct Box {
    pub left: f64,
    pub bottom: f64,
    pub right: f64,
    pub top: f64,
}

// The bounds of a field, and its bin counts.
#[derive(Clone, Copy)]
pub struct Grid {
    pub bounds: Box,
    pub bins: Bin,
}

// Which cells a point is looked for in: those that are listed in its bin, or all.
#[derive(Clone, Copy)]
pub enum Search {
    Bins,
    All,
}

// The cell that a point locates in, and where the point lies to its polygon; outside where there is none.
#[derive(Clone, Copy)]
pub struct Located {
    pub cell: Option<usize>,
    pub position: Position,
}

// No cell.
fn nowhere() -> Located
    ensures { result ≡ Ensures.nowhere }
{
    Located {
        cell: None,
        position: Position::Outside,
    }
}

// A number of bins as a float; from i64 that is one machine instruction.
fn as_float(n: usize) -> f64
    requires { n ≤ most_bins }
    ensures { result ≡ ofℕ n }
{
    n as i64 as f64
}

// Where `a` lies between `low` and `high`, counted in n bins.
fn place_along(low: f64, high: f64, n: usize, a: f64) -> f64
    requires { n ≤ most_bins }
    ensures { result ≡ Bins.place_along low high n a }
{
    float::clamp((a - low) / (high - low)) * as_float(n)
}

// The bin of a place whose whole part is k.
fn bin_at_place(n: usize, k: usize) -> usize
    requires { 0 < n }
    ensures { (result ≡ k % n) × (result < n) }
{
    if k < n { k } else { k % n }
}

// The index's bin of a place whose whole part is k.
fn index_at(n: usize, w: f64, k: usize) -> usize
    requires { (n ≤ most_bins) × (k ≡ floorℕ w) }
    ensures { (result ≡ Ranges.index_at n w) × (result ≤ n) }
{
    if k < n {
        if as_float(k) + 0.5 <= w { k + 1 } else { k }
    } else {
        n
    }
}

// The bin of a point.
pub fn bin_for(g: Grid, p: Vec2) -> Bin
    requires { HasBins g }
    ensures { (result ≡ Bins.bin_for g p) × (result.x < most_bins) × (result.y < most_bins) }
{
    let x = place_along(g.bounds.left, g.bounds.right, g.bins.x, p.x);
    let y = place_along(g.bounds.bottom, g.bounds.top, g.bins.y, p.y);
    Bin {
        x: bin_at_place(g.bins.x, float::floor_usize(x)),
        y: bin_at_place(g.bins.y, float::floor_usize(y)),
    }
}

// The index's bin of a point.
pub fn index_bin(g: Grid, p: Vec2) -> Bin
    requires { HasBins g }
    ensures { (result ≡ Ranges.index_bin g p) × (result.x ≤ most_bins) × (result.y ≤ most_bins) }
{
    let x = place_along(g.bounds.left, g.bounds.right, g.bins.x, p.x);
    let y = place_along(g.bounds.bottom, g.bounds.top, g.bins.y, p.y);
    Bin {
        x: index_at(g.bins.x, x, float::floor_usize(x)),
        y: index_at(g.bins.y, y, float::floor_usize(y)),
    }
}

// The bin of a point, and that of the index.
#[derive(Clone, Copy)]
struct Places {
    bin: Bin,
    index: Bin,
}

// Both bins of a point.
fn places_of(g: Grid, p: Vec2) -> Places
    requires { HasBins g }
    ensures { (result.bin ≡ Bins.bin_for g p) × (result.index ≡ Ranges.index_bin g p) }
{
    let x = place_along(g.bounds.left, g.bounds.right, g.bins.x, p.x);
    let y = place_along(g.bounds.bottom, g.bounds.top, g.bins.y, p.y);
    let column = float::floor_usize(x);
    let row = float::floor_usize(y);
    Places {
        bin: Bin {
            x: bin_at_place(g.bins.x, column),
            y: bin_at_place(g.bins.y, row),
        },
        index: Bin {
            x: index_at(g.bins.x, x, column),
            y: index_at(g.bins.y, y, row),
        },
    }
}

// Where the words, and the floats, of cell i start.
pub fn words_at(s: Sizes, i: usize) -> usize
    requires { (s.slots ≤ most_words) × (s.cells ≤ most_cells) × (i < s.cells) }
    ensures { result ≡ Layout.words_at s i }
{
    16 * s.slots + 8 * s.cells + 8 * i
}

pub fn floats_at(s: Sizes, i: usize) -> usize
    requires { (s.slots ≤ most_words) × (s.cells ≤ most_cells) × (i < s.cells) }
    ensures { result ≡ Layout.floats_at s i }
{
    12 * s.slots + 4 * s.cells + 60 * i
}

// How many vertices cell i has.
pub fn count_in(words: &[u32], s: Sizes, i: usize) -> usize
    requires { LentWords s words.now × (i < s.cells) }
    ensures { (result ≡ Layout.count_in s words.now i) × (result ≤ 24) }
{
    let at = words_at(s, i);
    wide(words[at + 4]).min(24)
}

// The bin whose word stands at `at`.
fn bin_at(words: &[u32], at: usize) -> Bin
    requires { at < length words.now }
    ensures { result ≡ Layout.bin_from words.now at }
{
    let word = wide(words[at]);
    Bin {
        x: word % 65536,
        y: word / 65536,
    }
}

// b lies from first to last.
fn reaches(first: usize, last: usize, b: usize) -> bool
    ensures { result ≡ Index.reaches first last b }
{
    first <= b && b <= last
}

// Cell i is listed in bin b.
fn is_listed(words: &[u32], s: Sizes, i: usize, b: Bin) -> bool
    requires { LentWords s words.now × (i < s.cells) }
    ensures { (floats : List Float) → result ≡ Bins.is_listed b
        (Layout.cell_polygon_in s words.now floats i) }
{
    let at = words_at(s, i);
    let first = bin_at(words, at + 5);
    let last = bin_at(words, at + 6);
    reaches(first.x, last.x, b.x) && reaches(first.y, last.y, b.y)
}

// q lies within the limits of cell i.
fn may_contain(floats: &[f64], s: Sizes, q: Vec2, i: usize) -> bool
    requires { LentFloats s floats.now × (i < s.cells) }
    ensures { result ≡ not (misses (limits_from floats.now (Layout.floats_at s i + 48)) q) }
{
    let limits = extent::limits_at(floats, floats_at(s, i) + 48);
    !extent::misses(limits, q)
}

// Where q lies to the polygon of cell i.
fn position_in(words: &[u32], floats: &[f64], s: Sizes, q: Vec2, i: usize) -> Position
    requires { LentWords s words.now × LentFloats s floats.now × (i < s.cells) }
    ensures { result ≡ position q (Layout.polygon_in s words.now floats.now i) }
{
    let n = count_in(words, s, i);
    lines_polygon::point_in_polygon(q, floats, floats_at(s, i), n)
}

// Cell i is looked at for a point of bin b.
fn is_searched(words: &[u32], s: Sizes, search: Search, b: Bin, i: usize) -> bool
    requires { LentWords s words.now × (i < s.cells) }
    ensures { (floats : List Float) → result ≡ Locate.is_searched search b
        (Layout.cell_polygon_in s words.now floats i) }
{
    match search {
        Search::Bins => is_listed(words, s, i, b),
        Search::All => true,
    }
}

// The lowest cell that holds q, over all cells.
fn first_holding(
    words: &[u32],
    floats: &[f64],
    s: Sizes,
    search: Search,
    b: Bin,
    q: Vec2,
) -> Located
    requires { LentWords s words.now × LentFloats s floats.now
        × Ensures.HasLimits s words.now floats.now }
    ensures { result ≡ Ensures.first_holding search b q
        (Layout.cell_polygons_in s words.now floats.now) }
{
    for i in 0..s.cells {
        if may_contain(floats, s, q, i) {
            if is_searched(words, s, search, b, i) {
                let position = position_in(words, floats, s, q, i);
                if lines_polygon::is_within(position) {
                    return Located {
                        cell: Some(i),
                        position,
                    };
                }
            }
        }
    }
    nowhere()
}

// The first node of bin c of the index.
fn head(words: &[u32], s: Sizes, g: Grid, c: Bin) -> usize
    requires lent_words { LentWords s words.now × HasBins g × (c.x < g.bins.x + 1) × (c.y < g.bins.y + 1) }
    requires bin_index { BinIndex words.now (words_end s) s.cells (g.bins.x + 1) (g.bins.y + 1) }
    ensures { result ≡ head_in words.now (words_end s) s.cells (g.bins.x + 1) c.x c.y }
{
    let bin = lines_bins::bin_of(g.bins.x + 1, g.bins.y + 1, c.x, c.y);
    lines_bins::pool(words, 16 * s.slots + 8 * s.cells, s.cells, bin)
}

// The lowest cell that holds q, along the chain of the index's bin of q.
fn first_indexed(
    words: &[u32],
    floats: &[f64],
    s: Sizes,
    g: Grid,
    search: Search,
    at: Places,
    q: Vec2,
) -> Located
    requires lent_words { LentWords s words.now × LentFloats s floats.now
        × Ensures.LocateCellEntry g s words.now floats.now × (finite q.x ≡ true) × (finite q.y ≡ true) }
    requires bin_index { BinIndex words.now (words_end s) s.cells (g.bins.x + 1) (g.bins.y + 1)
        × (at.index ≡ Ranges.index_bin g q) }
    ensures { result ≡ Ensures.first_holding search at.bin q
        (Layout.cell_polygons_in s words.now floats.now) }
{
    let base = 16 * s.slots + 8 * s.cells;
    let mut h = head(words, s, g, at.index);
    // No `for`: the next node is known only once this one was read.
    while h != 0 {
        let i = lines_bins::pool(words, base, s.cells, h);
        if may_contain(floats, s, q, i) {
            if is_searched(words, s, search, at.bin, i) {
                let position = position_in(words, floats, s, q, i);
                if lines_polygon::is_within(position) {
                    return Located {
                        cell: Some(i),
                        position,
                    };
                }
            }
        }
        h = lines_bins::pool(words, base, s.cells, h + 1);
    }
    nowhere()
}

// The index of the bins stands.
fn is_indexed(words: &[u32], s: Sizes) -> bool
    requires { LentWords s words.now }
    ensures { result ≡ true → (0 < s.cells) × (flag_in words.now (words_end s) s.cells ≡ 1) }
{
    s.cells > 0 && lines_bins::flag(words, 16 * s.slots + 8 * s.cells, s.cells) == 1
}

// The lowest cell that holds q.
fn first_at(words: &[u32], floats: &[f64], s: Sizes, g: Grid, search: Search, q: Vec2) -> Located
    requires { LentWords s words.now × LentFloats s floats.now
        × Ensures.LocateCellEntry g s words.now floats.now × (finite q.x ≡ true) × (finite q.y ≡ true) }
    ensures { result ≡ Ensures.first_holding search (Bins.bin_for g q) q
        (Layout.cell_polygons_in s words.now floats.now) }
{
    let at = places_of(g, q);
    if is_indexed(words, s) {
        first_indexed(words, floats, s, g, search, at, q)
    } else {
        first_holding(words, floats, s, search, at.bin, q)
    }
}

// The lowest cell that contains p, of those listed in its bin or of all, and where p lies to its
// polygon; nowhere for an x or y that is not finite. Wherever the bins find a cell, all cells give
// that one or a lower one; and a cell is found exactly where p is not outside.
pub fn locate_cell(
    words: &[u32],
    floats: &[f64],
    s: Sizes,
    g: Grid,
    search: Search,
    p: Vec3,
) -> Located
    requires { LentWords s words.now × LentFloats s floats.now
        × Ensures.LocateCellEntry g s words.now floats.now }
    ensures value { result ≡ Locate.located search g
        (Layout.cell_polygons_in s words.now floats.now) p }
    ensures at_or_below { Locate.AtOrBelow result.cell (Locate.locate Variants.Bins g
        (Layout.cell_polygons_in s words.now floats.now) p) × Locate.FoundWithin result }
{
    if float::is_finite(p.x) && float::is_finite(p.y) {
        let q = Vec2 { x: p.x, y: p.y };
        first_at(words, floats, s, g, search, q)
    } else {
        nowhere()
    }
}
