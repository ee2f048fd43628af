// The whole number nearest to a square root: checked where one is given, else digit by digit.
#![tactic(auto)]

ghost use Rattle.std.specs.Prelude.{T, ◌+◌, ◌*◌, ◌^◌, ◌<◌};
ghost use Rattle.arith_whole_root.specs.Whole.{WholeRoot, RootFrom, HalfRoot};

// The whole square root of d * 2^54, one of its 54 binary digits in a turn: q has the digits found
// so far, at their places, k is how many are to come, and y is what the square of q leaves of
// d * 2^54, in units of 2^k. The next digit, at the place b, is 1 where what it adds to the square
// of q, b * t, is at most what is left, b * z.
fn whole_root(d: u64) -> u64
    requires { d < 2 ^ 54 }
    ensures { WholeRoot (d * 2 ^ 54) result }
{
    let mut q = 0u64;
    let mut y = d;
    for k in (0u64..54).rev() {
        let b = 1u64 << k;
        let t = 2 * q + b;
        let z = 2 * y;
        let c = (t <= z) as u64;
        q += c * b;
        y = z - c * t;
    }
    q
}

// Whether q = h * 2^27 + l is found to be the root of d * 2^54, or less than 2 below it. The square
// of q is taken from d * 2^54 in three parts, and what is left must be less than the step to the
// square of q + 2.
fn is_root_from(d: u64, h: u64, l: u64) -> bool
    requires { (h < 2 ^ 28) × (l < 2 ^ 28) }
    ensures { T result → RootFrom (d * 2 ^ 54) (h * 2 ^ 27 + l) }
{
    if d < h * h {
        return false;
    }
    let u = d - h * h;
    if u >= 0x4000_0000 {
        return false;
    }
    let a = u * 0x800_0000;
    let m = 2 * (h * l);
    if a < m {
        return false;
    }
    let v = a - m;
    if v >= 0x4000_0000 {
        return false;
    }
    let b = v * 0x800_0000;
    if b < l * l {
        return false;
    }
    b - l * l < 4 * (h * 0x800_0000 + l) + 4
}

// Whether m is found to be √d * 2^26, rounded to the nearest whole number: 2 * m - 1 is at most
// the root of d * 2^54, and 2 * m + 1 is above it.
pub fn is_half_root(d: u64, m: u64) -> bool
    ensures { T result → HalfRoot (d * 2 ^ 54) m }
{
    if m == 0 {
        return false;
    }
    if m > 0x20_0000_0000_0000 {
        return false;
    }
    let q = 2 * m - 1;
    is_root_from(d, q / 0x800_0000, q % 0x800_0000)
}

// √d * 2^26, rounded to the nearest whole number: a neighbour of m where that is found to be it,
// else digit by digit.
pub fn half_root(d: u64, m: u64) -> u64
    requires { d < 2 ^ 54 }
    ensures { HalfRoot (d * 2 ^ 54) result }
{
    if m > 0 {
        if is_half_root(d, m - 1) {
            return m - 1;
        }
        if m < 0x20_0000_0000_0000 {
            if is_half_root(d, m + 1) {
                return m + 1;
            }
        }
    }
    (whole_root(d) + 1) / 2
}
