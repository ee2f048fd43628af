// An index of bins in the words of a work area: for each bin the chain of the cells that are listed
// in it, rising. From `base` on there are n records of 8 words, which start with a cell's range:
// first x and y, last x and y. The index stands behind them, where it fits.
#![tactic(auto)]

ghost use Rattle.std.specs.Prelude.{◌≡◌, ◌+◌, ◌*◌, ◌≤◌, ◌<◌, length};
ghost use Rattle.arith.specs.Limits.{most_cells, 2^32};
ghost use Rattle.lines_bins.specs.Index.{range_word, flag_in, pool_in, within};
ghost use Rattle.lines_bins.specs.Ensures.{SetPoolExit, SetFlagExit, PushExit, Chains, BinRanges, ListCellExit, FillExit, BuildExit};

use arith::number::{narrow, wide};

// Word k of cell i's record.
fn slot(words: &[u32], base: usize, i: usize, k: usize) -> usize
    requires { (base + 8 * i + 8 ≤ length words.now) × (base ≤ 16908288) × (i < most_cells) × (k < 4) }
    ensures { (result ≡ range_word words.now base i k) × (result < 2^32) }
{
    wide(words[base + 8 * i + k])
}

// Word p of the pool.
pub fn pool(words: &[u32], base: usize, n: usize, p: usize) -> usize
    requires { (base + 88 * n ≤ length words.now) × (base ≤ 16908288) × (n ≤ most_cells) × (p < 72 * n) }
    ensures { (result ≡ pool_in words.now base n p) × (result < 2^32) }
{
    wide(words[base + 8 * n + 1 + p])
}

fn set_pool(words: &mut [u32], base: usize, n: usize, p: usize, v: usize)
    requires { (base + 88 * n ≤ length words.old) × (base ≤ 16908288) × (n ≤ most_cells) × (p < 72 * n)
        × (v < 2^32) }
    ensures { SetPoolExit words.old words.new base n p v }
{
    words[base + 8 * n + 1 + p] = narrow(v);
}

// 1 where the index stands.
pub fn flag(words: &[u32], base: usize, n: usize) -> usize
    requires { (base + 88 * n ≤ length words.now) × (base ≤ 16908288) × (n ≤ most_cells) × (0 < n) }
    ensures { result ≡ flag_in words.now base n }
{
    wide(words[base + 8 * n])
}

fn set_flag(words: &mut [u32], base: usize, n: usize, v: u32)
    requires { (base + 88 * n ≤ length words.old) × (base ≤ 16908288) × (n ≤ most_cells) × (0 < n) }
    ensures { SetFlagExit words.old words.new base n v }
{
    words[base + 8 * n] = v;
}

// A node for a cell, before the others of its bin.
fn push(words: &mut [u32], base: usize, n: usize, bin: usize, cell: usize, top: usize)
    requires { (base + 88 * n ≤ length words.old) × (base ≤ 16908288) × (n ≤ most_cells) × (top + 2 ≤ 72 * n)
        × (bin < top) × (cell < n) }
    ensures { PushExit words.old words.new base n bin cell top }
{
    let old = pool(words, base, n, bin);
    set_pool(words, base, n, top, cell);
    set_pool(words, base, n, top + 1, old);
    set_pool(words, base, n, bin, top);
}

// The head of bin x, y stands at this place of the pool.
pub fn bin_of(nx: usize, ny: usize, x: usize, y: usize) -> usize
    requires { (x < nx) × (y < ny) × (nx * ny ≤ 1179648) }
    ensures { (result ≡ nx * y + x) × (result < nx * ny) }
{
    nx * y + x
}

// Empties the chain of every bin.
fn clear(words: &mut [u32], base: usize, n: usize, nx: usize, ny: usize)
    requires bin_ranges { BinRanges words.old base n nx ny }
    requires ny_bound { nx * ny ≤ 72 * n }
    ensures { ListCellExit words.old words.new base n nx ny (nx * ny) (λ x y. n) }
{
    let heads = base + 8 * n + 1;
    words[heads..heads + nx * ny].fill(0);
}

// Lists cell i in row y of its bins; the pool's new end, or 0 where it is full.
fn list_row(
    words: &mut [u32],
    base: usize,
    n: usize,
    nx: usize,
    ny: usize,
    i: usize,
    y: usize,
    top: usize,
) -> usize
    requires bin_ranges { BinRanges words.old base n nx ny }
    requires chains { Chains words.old base n nx ny top (within i y 0) }
    requires i_lt_n { (i < n) × (range_word words.old base i 1 ≤ y) × (y ≤ range_word words.old base i 3) }
    ensures { ListCellExit words.old words.new base n nx ny result (within i (y + 1) 0) }
{
    let x0 = slot(words, base, i, 0);
    let x1 = slot(words, base, i, 2);
    let mut t = top;
    for x in x0..=x1 {
        if 72 * n - t < 2 {
            return 0;
        }
        push(words, base, n, bin_of(nx, ny, x, y), i, t);
        t += 2;
    }
    t
}

// Lists cell i in all its bins.
fn list_cell(
    words: &mut [u32],
    base: usize,
    n: usize,
    nx: usize,
    ny: usize,
    i: usize,
    top: usize,
) -> usize
    requires bin_ranges { BinRanges words.old base n nx ny }
    requires chains { Chains words.old base n nx ny top (λ x y. i + 1) }
    requires i_lt_n { i < n }
    ensures { ListCellExit words.old words.new base n nx ny result (λ x y. i) }
{
    let y0 = slot(words, base, i, 1);
    let y1 = slot(words, base, i, 3);
    let mut t = top;
    for y in y0..=y1 {
        t = list_row(words, base, n, nx, ny, i, y, t);
        if t == 0 {
            return 0;
        }
    }
    t
}

// Lists every cell, from the last down, so that each chain rises; false where the pool does not suffice.
fn fill(words: &mut [u32], base: usize, n: usize, nx: usize, ny: usize, top: usize) -> bool
    requires bin_ranges { BinRanges words.old base n nx ny }
    requires chains { Chains words.old base n nx ny top (λ x y. n) }
    ensures { FillExit words.old words.new base n nx ny result }
{
    let mut t = top;
    for i in (0..n).rev() {
        t = list_cell(words, base, n, nx, ny, i, t);
        if t == 0 {
            return false;
        }
    }
    true
}

// The chains of all bins; false where the pool does not suffice.
fn chain_all(words: &mut [u32], base: usize, n: usize, nx: usize, ny: usize) -> bool
    requires bin_ranges { BinRanges words.old base n nx ny }
    requires ny_bound { nx * ny < 18446744073709551616 }
    ensures { FillExit words.old words.new base n nx ny result }
{
    let heads = nx * ny;
    if heads > 72 * n {
        return false;
    }
    clear(words, base, n, nx, ny);
    fill(words, base, n, nx, ny, heads)
}

// The index of all cells, where it fits.
pub fn build(words: &mut [u32], base: usize, n: usize, nx: usize, ny: usize)
    requires bin_ranges { BinRanges words.old base n nx ny }
    requires ny_bound { (nx * ny < 18446744073709551616) × (0 < n) }
    ensures { BuildExit words.old words.new base n nx ny }
{
    if chain_all(words, base, n, nx, ny) {
        set_flag(words, base, n, 1);
    } else {
        set_flag(words, base, n, 0);
    }
}
