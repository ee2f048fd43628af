// The words of a line: its points, or its sheet in whole millimetres. A pen goes from point to
// point, and no list of them is held.
#![tactic(auto)]

ghost use Rattle.std.specs.Prelude.{◌≡◌, ◌-◌, ◌<◌, set};
ghost use Rattle.std.proofs.lemmas.List.Edits.{sets};
ghost use Rattle.arith.specs.Limits.{2^32};
ghost use Rattle.lines_words.specs.Sheet as Sheets;
ghost use Rattle.lines_words.specs.Pen as Pens;
ghost use Rattle.lines_words.specs.Ensures.{SheetPointEntry, PenEntry, PutPointExit};

use arith::Vec3;
use lines_millimetres::Rounding;

// What is written of a line: its points by their floats, or in whole millimetres.
#[derive(Clone, Copy)]
pub enum Style {
    Points,
    Sheet(Rounding),
}

// x and y of a point in whole millimetres.
#[derive(Clone, Copy)]
pub struct SheetPoint {
    pub x: i64,
    pub y: i64,
}

// What was written of a line: in which style, from which word on, how many points, and the last one
// of a sheet.
#[derive(Clone, Copy)]
pub struct Pen {
    pub style: Style,
    pub at: usize,
    pub count: usize,
    pub last: SheetPoint,
}

// A pen before the first point of a line, whose words start at `at`.
pub fn pen_at(style: Style, at: usize) -> Pen
    ensures { result ≡ Pens.pen_at style at }
{
    Pen {
        style,
        at,
        count: 0,
        last: SheetPoint { x: 0, y: 0 },
    }
}

// A point on a sheet.
fn sheet_point(p: Vec3, rounding: Rounding) -> SheetPoint
    requires { SheetPointEntry p }
    ensures { result ≡ Sheets.sheet_point rounding p }
{
    SheetPoint {
        x: lines_millimetres::millimetres(p.x, rounding),
        y: lines_millimetres::millimetres(p.y, rounding),
    }
}

// Both numbers are equal.
fn is_same(a: SheetPoint, b: SheetPoint) -> bool
    ensures { result ≡ Sheets.is_same a b }
{
    a.x == b.x && a.y == b.y
}

// Where the next point's words go.
fn next_word(pen: Pen) -> usize
    requires { PenEntry pen }
    ensures { (result ≡ Pens.next_word pen) × (pen.at < result) × (result < 2^32) }
{
    let style = pen.style;
    match style {
        Style::Points => pen.at + 1 + 3 * pen.count,
        Style::Sheet(_) => pen.at + 1 + 2 * pen.count,
    }
}

// The pen with one point more, the last of a sheet.
fn one_more(pen: Pen, last: SheetPoint) -> Pen
    requires { PenEntry pen }
    ensures { result ≡ Pens.one_more pen last }
{
    Pen {
        count: pen.count + 1,
        last,
        ..pen
    }
}

// The point equals the one listed just before it.
fn is_repeated(pen: Pen, m: SheetPoint) -> bool
    ensures { result ≡ Pens.is_repeated pen m }
{
    pen.count > 0 && is_same(pen.last, m)
}

// A point of a sheet, unless it is repeated.
fn put_sheet_point(out: &mut [u64], pen: Pen, m: SheetPoint) -> Pen
    requires { PenEntry pen }
    ensures { (result ≡ Pens.sheet_pen_after pen m)
        × (out.new ≡ sets out.old (Pens.next_word pen) (Pens.sheet_words_of pen m)) }
{
    if is_repeated(pen, m) {
        return pen;
    }
    let at = next_word(pen);
    answers::put(out, at, lines_millimetres::word(m.x));
    answers::put(out, at + 1, lines_millimetres::word(m.y));
    one_more(pen, m)
}

// The words of the next point of a line, as far as they fit.
pub fn put_point(out: &mut [u64], pen: Pen, p: Vec3) -> Pen
    requires { PenEntry pen × SheetPointEntry p }
    ensures { PutPointExit pen p out.old out.new result }
{
    let style = pen.style;
    match style {
        Style::Points => {
            answers::put_vec(out, next_word(pen), p);
            one_more(pen, pen.last)
        }
        Style::Sheet(rounding) => put_sheet_point(out, pen, sheet_point(p, rounding)),
    }
}

// The count goes before the points; how many words the line has.
pub fn close(out: &mut [u64], pen: Pen) -> usize
    requires { PenEntry pen }
    ensures { (result ≡ Pens.next_word pen - pen.at)
        × (out.new ≡ set out.old pen.at pen.count) }
{
    answers::put(out, pen.at, pen.count as u64);
    next_word(pen) - pen.at
}
