// The square root of an f64, rounded once to the nearest f64.
#![tactic(auto)]

ghost use Rattle.std.specs.Prelude.{◌≡◌, ◌+◌, ◌*◌, ◌^◌, ◌≤◌, ◌<◌};
ghost use Rattle.std.specs.Float.{binary64};
ghost use Rattle.std.specs.Float.Ieee.{of_bits};
ghost use Rattle.arith_root.specs.Root.{root, rounded, SquareRoot};
ghost use Rattle.arith_root.specs.Ensures.{UnpackExit, units_of};

// Within 4 % of 1 / √x, for the x above 2^-1022 whose bit pattern is b. Half of the pattern has
// half of the exponent, and taken from a constant it has that exponent's opposite.
fn inverse_root(b: u64) -> f64
    requires { b ≤ 0x7ff0_0000_0000_0000 }
{
    f64::from_bits(0x5fe6_eb50_c7b5_37a9 - b / 2)
}

// Nearly always √x rounded to the nearest float, where s = x * y and p = s * y is within 10^-5 of 1.
// The first 26 binary digits of s are h, and √x is h + e / (h + √x), where e has no error. One
// over that sum is close to y / 8 * (7 - p - 2 * h * y); the 7 is a little higher, because what
// that leaves out is above 0.
fn corrected(x: f64, y: f64, s: f64) -> f64 {
    let p = s * y;
    if p > 0.0 {
        let b = f64::to_bits(s);
        let h = f64::from_bits(b - b % 0x800_0000);
        let e = x - h * h;
        h + e * (0.125 * y) * ((7.0000000000037 - p) - h * (y + y))
    } else {
        0.0
    }
}

// Nearly always √x rounded to the nearest float, for an x from 2^-1022 on. From a start a that is
// within 4 % of 1 / √x, a cubic of x * a * a, times a, comes within 10^-6 of it.
fn estimate(x: f64) -> f64 {
    if x > 0.0 {
        let a = inverse_root(f64::to_bits(x));
        let w = x * a * a;
        let f = (2.526508863447309 - w) * (0.3130517199569032 * a);
        let t = w - 0.8377313827681078;
        let g = t * t + 2.0662594046640144;
        corrected(x, f * g, x * f * g)
    } else {
        0.0
    }
}

// Nearly always √x rounded to the nearest float, for any x above 0, whose bit pattern is b: where x
// is below 2^-1022, by x * 2^108, whose root is 2^54 times that of x.
fn any_estimate(x: f64, b: u64) -> f64 {
    if b < 0x10_0000_0000_0000 {
        estimate(x * 324518553658426726783156020576256.0) / 18014398509481984.0
    } else {
        estimate(x)
    }
}

// A positive finite float as `a` * 2^(`h` - 2098), where `a` has 53 binary digits.
#[derive(Clone, Copy)]
struct Parts {
    a: u64,
    h: u64,
}

// The parts of the float whose bit pattern is b.
fn unpack(b: u64) -> Parts
    requires { (0 < b) × (b < 0x7ff0_0000_0000_0000) }
    ensures { UnpackExit b result.a result.h }
{
    let e = b / 0x10_0000_0000_0000;
    if e == 0 {
        let s = u64::leading_zeros(b) as u64 - 11;
        Parts {
            a: b << s,
            h: 1024 - s,
        }
    } else {
        Parts {
            a: b % 0x10_0000_0000_0000 + 0x10_0000_0000_0000,
            h: e + 1023,
        }
    }
}

// The bit pattern of s less o, where s is above 0 and that is no less than 0, else 0.
fn pattern_from(s: f64, o: u64) -> u64
    ensures { 0 < result → s ≡ of_bits binary64 (o + result) }
{
    if s > 0.0 {
        let t = f64::to_bits(s);
        if t >= o {
            return t - o;
        }
    }
    0
}

// The root of the positive finite float whose bit pattern is b: s, where that is found to be it.
fn positive(b: u64, s: f64) -> f64
    requires { (0 < b) × (b < 0x7ff0_0000_0000_0000) }
    ensures { result ≡ rounded (units_of b * 2 ^ 1074) }
{
    let p = unpack(b);
    let d = p.a * (1 + p.h % 2);
    let o = (p.h / 2 - 1) * 0x10_0000_0000_0000;
    let m = pattern_from(s, o);
    if arith_whole_root::is_half_root(d, m) {
        return s;
    }
    f64::from_bits(o + arith_whole_root::half_root(d, m))
}

// The square root of x, rounded once to the nearest float. Zeros keep their sign, a NaN or a
// negative number gives a NaN, and infinity itself.
pub fn sqrt(x: f64) -> f64
    ensures value { result ≡ root x }
    ensures square_root { SquareRoot x result }
{
    if x > 0.0 {
        let b = f64::to_bits(x);
        if b < 0x7ff0_0000_0000_0000 {
            positive(b, any_estimate(x, b))
        } else {
            x
        }
    } else if x < 0.0 {
        0.0 / 0.0
    } else {
        x
    }
}
