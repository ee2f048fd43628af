// The FNV-1a hash of 64 bits.
ghost use Rattle.std.specs.Prelude.{◌≡◌};
ghost use Rattle.test_stored.specs.Fnv as Fnv;

// The hash of no bytes.
pub const EMPTY: u64 = 0xcbf2_9ce4_8422_2325;

// The product with the prime 2^40 + 435, of 64 bits.
fn times_prime(h: u64) -> u64
    ensures { result ≡ Fnv.times_prime h }
{
    h.wrapping_mul(0x100_0000_01b3)
}

// The hash h, one byte further.
pub fn byte(h: u64, b: u8) -> u64
    ensures { result ≡ Fnv.hash_byte h b }
{
    times_prime(h ^ u64::from(b))
}

// The hash h, further by the eight bytes of x, the low one first.
pub fn word(h: u64, x: u64) -> u64
    ensures { result ≡ Fnv.hash_bytes 8 h x }
{
    let mut hash = h;
    for b in x.to_le_bytes() {
        hash = byte(hash, b);
    }
    hash
}
