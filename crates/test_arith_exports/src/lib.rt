// The root, the leaves of arith and the millimetres for programs in other languages. Each function
// calls one of those crates and promises the same definition. Beside them a plain copy of bytes.
#![tactic(auto)]

mod copy;
mod directions;

ghost use Rattle.std.specs.Prelude.{◌≡◌, true, cond, ◌*◌, ◌^◌, ◌≤◌, ◌<◌};
ghost use Rattle.arith_whole_root.specs.Whole.{HalfRoot};
ghost use Rattle.arith_root.specs.Root.{root, SquareRoot};
ghost use Rattle.arith.specs.F64 as F64;
ghost use Rattle.arith.specs.Vec.{pair};
ghost use Rattle.arith_angles.specs.Angle.{turns_before};
ghost use Rattle.lines_millimetres.specs.Nearest.{under2^53, millimetres};
ghost use Rattle.test_arith_exports.specs.Directions.{fitting, ordered};
ghost use Rattle.test_arith_exports.specs.Millimetres.{rounding_of, sheet_number};

use arith::{Vec2, bytes, float};
use arith_angles::angles;
use lines_millimetres::Rounding;

#[unsafe(no_mangle)]
pub extern "C" fn hookyellow_sqrt(x: f64) -> f64
    ensures value { result ≡ root x }
    ensures square_root { SquareRoot x result }
{
    arith_root::sqrt(x)
}

// √d * 2^26, rounded to the nearest whole number, with no number to check first: by its digits alone.
// 0 where d is 2^54 or more.
#[unsafe(no_mangle)]
pub extern "C" fn hookyellow_half_root(d: u64) -> u64
    ensures { (d < 2 ^ 54 → HalfRoot (d * 2 ^ 54) result) × (2 ^ 54 ≤ d → result ≡ 0) }
{
    if d >= 0x40_0000_0000_0000 {
        return 0;
    }
    arith_whole_root::half_root(d, 0)
}

#[unsafe(no_mangle)]
pub extern "C" fn hookyellow_abs(x: f64) -> f64
    ensures { result ≡ F64.abs x }
{
    float::abs(x)
}

#[unsafe(no_mangle)]
pub extern "C" fn hookyellow_min(a: f64, b: f64) -> f64
    ensures { result ≡ F64.fmin a b }
{
    float::min(a, b)
}

#[unsafe(no_mangle)]
pub extern "C" fn hookyellow_max(a: f64, b: f64) -> f64
    ensures { result ≡ F64.fmax a b }
{
    float::max(a, b)
}

// x.clamp(0.0, 1.0)
#[unsafe(no_mangle)]
pub extern "C" fn hookyellow_clamp(x: f64) -> f64
    ensures { result ≡ F64.clamp x }
{
    float::clamp(x)
}

#[unsafe(no_mangle)]
pub extern "C" fn hookyellow_is_finite(x: f64) -> bool
    ensures { result ≡ F64.finite x }
{
    float::is_finite(x)
}

#[unsafe(no_mangle)]
pub extern "C" fn hookyellow_is_sign_negative(x: f64) -> bool
    ensures { result ≡ F64.signed x }
{
    float::is_sign_negative(x)
}

// The distance a comes before b.
#[unsafe(no_mangle)]
pub extern "C" fn hookyellow_nearer(a: f64, b: f64) -> bool
    ensures { result ≡ F64.nearer a b }
{
    float::nearer(a, b)
}

#[unsafe(no_mangle)]
pub extern "C" fn hookyellow_floor_usize(x: f64) -> usize
    ensures { result ≡ F64.floorℕ x }
{
    float::floor_usize(x)
}

#[unsafe(no_mangle)]
pub extern "C" fn hookyellow_ceil_usize(x: f64) -> usize
    ensures { result ≡ F64.ceilℕ x }
{
    float::ceil_usize(x)
}

// The bits n as a float, and its bits again.
#[unsafe(no_mangle)]
pub extern "C" fn hookyellow_bits(n: u64) -> u64
    ensures { result ≡ F64.word (F64.float n) }
{
    bytes::bits_of(bytes::float_of(n))
}

// The direction (dx, dy) stands before (ex, ey).
#[unsafe(no_mangle)]
pub extern "C" fn hookyellow_turns_before(dx: f64, dy: f64, ex: f64, ey: f64) -> bool
    ensures { result ≡ turns_before (pair dx dy) (pair ex ey) }
{
    let d = angles::angle_of(Vec2 { x: dx, y: dy });
    let e = angles::angle_of(Vec2 { x: ex, y: ey });
    angles::precedes(d, e)
}

fn rounded(x: f64, even: bool) -> i64
    requires { under2^53 x ≡ true }
    ensures { result ≡ millimetres (rounding_of even) x }
{
    if even {
        return lines_millimetres::millimetres(x, Rounding::ToEven);
    }
    lines_millimetres::millimetres(x, Rounding::AwayFromZero)
}

// x metres in whole millimetres, halves to the even neighbour or away from zero; 0 where x is 2^53
// metres or more in size, or no number.
#[unsafe(no_mangle)]
pub extern "C" fn hookyellow_millimetres(x: f64, even: bool) -> i64
    ensures { result ≡ sheet_number x even }
{
    if float::abs(x) < 9007199254740992.0 {
        return rounded(x, even);
    }
    0
}

// Puts the places of the directions (dx[i], dy[i]) in angle order. Where the slices are not
// equally long, or longer than 192, it answers false and leaves places.
#[unsafe(no_mangle)]
pub extern "C" fn hookyellow_sort(dx: &[f64], dy: &[f64], places: &mut [usize]) -> bool
    ensures value { result ≡ fitting dx.now dy.now places.old }
    ensures places_after { places.new ≡ cond result (ordered dx.now dy.now) places.old }
{
    let n = dx.len();
    if n > 192 {
        return false;
    }
    if dy.len() != n {
        return false;
    }
    if places.len() != n {
        return false;
    }
    directions::sort(dx, dy, places);
    true
}
