// Little-endian numbers in bytes, and a float as its 64 bits.
ghost use Rattle.std.specs.Prelude.{◌≡◌, ◌+◌, ◌≤◌, length};
ghost use Rattle.arith.specs.F64.{float, word};
ghost use Rattle.arith.specs.Bytes.{le32, le64, float_at, vec_at};

use crate::Vec3;

// The u32 that starts at `at`.
pub fn word_at(bytes: &[u8], at: usize) -> u32
    requires { at + 4 ≤ length bytes.now }
    ensures { result ≡ le32 bytes.now at }
{
    u32::from_le_bytes([bytes[at], bytes[at + 1], bytes[at + 2], bytes[at + 3]])
}

// The u64 that starts at `at`.
pub fn u64_at(bytes: &[u8], at: usize) -> u64
    requires { at + 8 ≤ length bytes.now }
    ensures { result ≡ le64 bytes.now at }
{
    let low = word_at(bytes, at);
    let high = word_at(bytes, at + 4);
    u64::from(low) + u64::from(high) * 0x1_0000_0000
}

// The float whose bits are `n`; every NaN pattern gives the one NaN.
pub fn float_of(n: u64) -> f64
    ensures { result ≡ float n }
{
    if n % 0x8000_0000_0000_0000 > 0x7ff0_0000_0000_0000 {
        f64::NAN
    } else {
        f64::from_bits(n)
    }
}

// The bits of `x`, a NaN's as 7ff8000000000000.
pub fn bits_of(x: f64) -> u64
    ensures { result ≡ word x }
{
    if x.is_nan() {
        0x7ff8_0000_0000_0000
    } else {
        x.to_bits()
    }
}

// The float that starts at `at`.
pub fn float_at(bytes: &[u8], at: usize) -> f64
    requires { at + 8 ≤ length bytes.now }
    ensures { result ≡ float_at bytes.now at }
{
    float_of(u64_at(bytes, at))
}

// The three floats that start at `at`.
pub fn vec_at(bytes: &[u8], at: usize) -> Vec3
    requires { at + 24 ≤ length bytes.now }
    ensures { result ≡ vec_at bytes.now at }
{
    let x = float_at(bytes, at);
    let y = float_at(bytes, at + 8);
    let z = float_at(bytes, at + 16);
    Vec3 { x, y, z }
}
