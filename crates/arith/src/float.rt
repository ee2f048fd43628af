// Rust's methods of f64.
ghost use Rattle.std.specs.Prelude.{◌≡◌};
ghost use Rattle.arith.specs.F64 as F64;

// f64::is_finite
pub fn is_finite(x: f64) -> bool
    ensures { result ≡ F64.finite x }
{
    x.is_finite()
}

// f64::abs
pub fn abs(x: f64) -> f64
    ensures { result ≡ F64.abs x }
{
    x.abs()
}

// f64::is_sign_negative, a NaN's sign counting as clear.
pub fn is_sign_negative(x: f64) -> bool
    ensures { result ≡ F64.signed x }
{
    !x.is_nan() && x.is_sign_negative()
}

// f64::min; of equal values the first, where f64::min may give either.
pub fn min(a: f64, b: f64) -> f64
    ensures { result ≡ F64.fmin a b }
{
    if a.is_nan() || b < a { b } else { a }
}

// f64::max; of equal values the first, where f64::max may give either.
pub fn max(a: f64, b: f64) -> f64
    ensures { result ≡ F64.fmax a b }
{
    if a.is_nan() || a < b { b } else { a }
}

// Into the range from 0 to 1; a -0 and a NaN stay.
pub fn clamp(x: f64) -> f64
    ensures { result ≡ F64.clamp x }
{
    x.clamp(0.0, 1.0)
}

// The distance a comes before b, where a NaN comes after all others.
pub fn nearer(a: f64, b: f64) -> bool
    ensures { result ≡ F64.nearer a b }
{
    a < b || (!a.is_nan() && b.is_nan())
}

// |x| is at most 1,048,576.
pub fn within(x: f64) -> bool
    ensures { result ≡ F64.within x }
{
    abs(x) <= 1048576.0
}

// x.floor() as usize
pub fn floor_usize(x: f64) -> usize
    ensures { result ≡ F64.floorℕ x }
{
    std::num::saturating_f64_to_u64(x) as usize
}

// x.ceil() as usize
pub fn ceil_usize(x: f64) -> usize
    ensures { result ≡ F64.ceilℕ x }
{
    let whole = floor_usize(x);
    if x < 9007199254740992.0 && (whole as f64) < x {
        whole + 1
    } else {
        whole
    }
}
