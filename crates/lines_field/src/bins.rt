// The bin counts of a grid, with the refusals 18 and 19, and the bins of each cell.
ghost use Rattle.std.specs.Prelude.{◌≡◌, map, ◌+◌, ◌*◌, ◌<◌, ◌≤◌, max, length, take};
ghost use Rattle.arith.specs.Limits.{most_cells, most_bins};
ghost use Rattle.arith.specs.F64.{ceilℕ};
ghost use Rattle.arith_root.specs.Root.{root};
ghost use Rattle.arith.specs.Records.{puts};
ghost use Rattle.mesh_area.specs.Layout.{words_end, LentWords, LentFloats};
ghost use Rattle.lines_field.specs.Bins as Bins;
ghost use Rattle.lines_locate.specs.Ensures.{HasBins, HasLimits, LocateCellEntry};
ghost use Rattle.lines_field.specs.Bins.{listed_in};
ghost use Rattle.lines_polygon.specs.Vertices.{pairs_from};
ghost use Rattle.lines_locate.specs.Ranges.{first_bin, last_bin};
ghost use Rattle.lines_field.specs.Ensures.{BinCountsExit, polygons_in, bin_word, SpanWithin, cell_words, listed_span, ListCellExit, ListCellsExit};
ghost use Rattle.lines_field.specs.Field.{grid_for};
ghost use Rattle.lines_locate.specs.Layout.{cell_polygons_in};

use crate::{BinSpan, bounds};
use arith::{Vec2, float};
use lines_locate::{Bin, Box, Grid};
use lines_polygon::{Limits, extent};
use mesh_area::Sizes;
use refusal::Refusal;

// How many bins for a length whose square is x.
fn bin_count(x: f64) -> usize
    ensures { (result ≡ max (ceilℕ (root x)) 1) × (0 < result) }
{
    float::ceil_usize(arith_root::sqrt(x)).max(1)
}

// How much wider than high a box is.
fn aspect(b: Box) -> f64
    ensures { result ≡ Bins.aspect b }
{
    (b.right - b.left) / (b.top - b.bottom)
}

// The bin counts for so many cells in a box.
pub fn bin_counts(cells: usize, b: Box) -> Bin
    requires { cells ≤ most_cells }
    ensures { BinCountsExit cells b result }
{
    let count = cells.max(1) as f64;
    let ratio = aspect(b);
    let x = bin_count(count * ratio);
    let y = bin_count(count / ratio);
    Bin { x, y }
}

// The bounds are not finite, or not wider and higher than 0.
fn are_flat(b: Box) -> bool
    ensures { result ≡ Bins.are_flat b }
{
    !(float::is_finite(b.left)
        && float::is_finite(b.bottom)
        && b.right > b.left
        && b.top > b.bottom)
}

// The grid, or the refusal.
pub fn grid_for(b: Box, n: Bin) -> Result<Grid, Refusal>
    requires { (0 < n.x) × (0 < n.y) }
    ensures { (result ≡ grid_for b n) × ((g : Grid) → result ≡ Ok g → HasBins g) }
{
    if are_flat(b) {
        return Err(Refusal::FlatBounds);
    }
    if n.x > 65536 {
        return Err(Refusal::TooManyBins);
    }
    if n.y > 65536 {
        return Err(Refusal::TooManyBins);
    }
    Ok(Grid { bounds: b, bins: n })
}

// A bin in one word.
fn bin_word(b: Bin) -> u32
    requires { (b.x < most_bins) × (b.y < most_bins) }
    ensures { result ≡ bin_word b }
{
    (65536 * b.y + b.x) as u32
}

// Stores the words of a cell from `at` on: its range in the index, how many vertices it has, and the
// first and the last bin that it is listed in.
fn put_cell(words: &mut [u32], at: usize, range: BinSpan, n: usize, listed: BinSpan)
    requires { (at + 7 ≤ length words.old) × SpanWithin range (most_bins + 1) × (n ≤ 24)
        × SpanWithin listed most_bins }
    ensures { words.new ≡ puts words.old at (cell_words range n listed) }
{
    words[at] = range.first.x as u32;
    words[at + 1] = range.first.y as u32;
    words[at + 2] = range.last.x as u32;
    words[at + 3] = range.last.y as u32;
    words[at + 4] = n as u32;
    words[at + 5] = bin_word(listed.first);
    words[at + 6] = bin_word(listed.last);
}

// The bins from that of the low corner of the n points from `at` on to that of their high corner.
fn listed_bins(floats: &[f64], g: Grid, at: usize, n: usize) -> BinSpan
    requires { HasBins g × (at + 2 * n ≤ length floats.now) × (n ≤ 24) }
    ensures { (result ≡ listed_span g (pairs_from floats.now at n)) × SpanWithin result most_bins }
{
    let own = bounds::widened_by(bounds::boundless(), floats, at, n);
    let low = Vec2 {
        x: own.left,
        y: own.bottom,
    };
    let high = Vec2 {
        x: own.right,
        y: own.top,
    };
    BinSpan {
        first: lines_locate::bin_for(g, low),
        last: lines_locate::bin_for(g, high),
    }
}

// The bins of the index that limits meet.
fn index_range(g: Grid, l: Limits) -> BinSpan
    requires { HasBins g }
    ensures { (result.first ≡ first_bin g l) × (result.last ≡ last_bin g l) × SpanWithin result (most_bins + 1) }
{
    let low = Vec2 {
        x: l.left,
        y: l.low,
    };
    let high = Vec2 {
        x: l.right,
        y: l.high,
    };
    BinSpan {
        first: lines_locate::index_bin(g, low),
        last: lines_locate::index_bin(g, high),
    }
}

// Lists cell i in the bins from its low corner's to its high corner's, and gives its range in the index.
fn list_cell(words: &mut [u32], floats: &[f64], s: Sizes, g: Grid, i: usize)
    requires { LentWords s words.old × LentFloats s floats.now × HasBins g × (i < s.cells) }
    ensures { ListCellExit g s words.old words.new floats.now i }
{
    let n = lines_locate::count_in(words, s, i);
    let at = lines_locate::floats_at(s, i);
    let range = index_range(g, extent::limits_at(floats, at + 48));
    let listed = listed_bins(floats, g, at, n);
    put_cell(words, lines_locate::words_at(s, i), range, n, listed);
}

// Lists every cell.
fn list_cells(words: &mut [u32], floats: &[f64], s: Sizes, g: Grid)
    requires { LentWords s words.old × LentFloats s floats.now × HasBins g }
    ensures { ListCellsExit g s words.old words.new floats.now }
{
    for i in 0..s.cells {
        list_cell(words, floats, s, g, i);
    }
}

// Lists every cell, and builds the index.
pub fn index_cells(words: &mut [u32], floats: &[f64], s: Sizes, g: Grid)
    requires { LentWords s words.old × LentFloats s floats.now × HasBins g
        × HasLimits s words.old floats.now }
    ensures { (cell_polygons_in s words.new floats.now ≡ map (listed_in g)
        (polygons_in s words.old floats.now))
        × (take (words_end s) words.new ≡ take (words_end s) words.old)
        × LocateCellEntry g s words.new floats.now }
{
    list_cells(words, floats, s, g);
    if s.cells > 0 {
        lines_bins::build(
            words,
            16 * s.slots + 8 * s.cells,
            s.cells,
            g.bins.x + 1,
            g.bins.y + 1,
        );
    }
}
