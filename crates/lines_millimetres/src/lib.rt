// Metres in whole millimetres.
#![tactic(auto)]

ghost use Rattle.std.specs.Prelude.{true, ◌≡◌, ◌*◌, ◌^◌, ◌≤◌, ◌<◌, Float};
ghost use Rattle.arith_root.specs.Ensures.{units_of};
ghost use Rattle.lines_millimetres.specs.Nearest as Nearest;
ghost use Rattle.lines_millimetres.specs.Ensures.{OnlyNearest};

use arith::float;

// Where an exact half goes.
#[derive(Clone, Copy)]
pub enum Rounding {
    AwayFromZero,
    ToEven,
}

// n / d to the nearest whole number.
fn divide(n: u64, d: u64, rounding: Rounding) -> u64
    requires { (n < 2 ^ 63) × (0 < d) }
    ensures { result ≡ Nearest.whole rounding n d }
{
    let q = n / d;
    let r = n % d;
    if r < d - r {
        return q;
    }
    if d - r < r {
        return q + 1;
    }
    match rounding {
        Rounding::AwayFromZero => q + 1,
        Rounding::ToEven => q + q % 2,
    }
}

// The float with the bit pattern b, which is below 2^53, times a factor, to the nearest whole
// number. With the exponent field e it is (2^52 + b % 2^52) / 2^(1075 - e). Below 2^-11, where e is
// below 1012, the product is less than a half.
fn times(b: u64, factor: u64, rounding: Rounding) -> u64
    requires { (b < 0x4340_0000_0000_0000) × (factor ≤ 1000) }
    ensures { (result ≡ Nearest.whole rounding (factor * units_of b) (2 ^ 1074)) × (result < 2 ^ 63) }
{
    let e = b / 0x10_0000_0000_0000;
    if e < 1012 {
        return 0;
    }
    let n = factor * (0x10_0000_0000_0000 + b % 0x10_0000_0000_0000);
    divide(n, 1u64 << (1075 - e), rounding)
}

// x metres in whole millimetres: the definition's number, which is the only nearest one of every
// float.
pub fn millimetres(x: f64, rounding: Rounding) -> i64
    requires { Nearest.under2^53 x ≡ true }
    ensures { (result ≡ Nearest.millimetres rounding x)
        × ((y : Float) → OnlyNearest rounding y (Nearest.millimetres rounding y)) }
{
    let size = float::abs(x);
    let b = f64::to_bits(size);
    if float::is_sign_negative(x) {
        -(times(b, 1000, rounding) as i64)
    } else {
        times(b, 1000, rounding) as i64
    }
}

// A number as an answer's word, in two's complement.
pub fn word(k: i64) -> u64
    ensures { result ≡ Nearest.word64 k }
{
    k.cast_unsigned()
}
