// Numbers stored as bytes, the low byte first, and bytes copied.
#![tactic(auto)]

ghost use Rattle.std.specs.Prelude.{◌≡◌, ◌+◌, ◌*◌, ◌≤◌, length, take};
ghost use Rattle.arith_bytes.specs.Stored.{le_bytes, all_bytes, stored};

// Stores the low `size` bytes of `w` at `at`.
pub fn put_number(out: &mut [u8], at: usize, w: u64, size: usize)
    requires { at + size ≤ length out.old }
    ensures { out.new ≡ stored at (le_bytes size w) out.old }
{
    let mut left = w;
    for byte in &mut out[at..at + size] {
        *byte = (left % 256) as u8;
        left /= 256;
    }
}

// Stores numbers of eight bytes, one after the other.
pub fn put_u64s(out: &mut [u8], at: usize, numbers: &[u64])
    requires { at + 8 * length numbers.now ≤ length out.old }
    ensures { out.new ≡ stored at (all_bytes 8 numbers.now) out.old }
{
    for (i, number) in numbers.iter().enumerate() {
        put_number(out, at + 8 * i, *number, 8);
    }
}

// Stores numbers of four bytes, one after the other.
pub fn put_u32s(out: &mut [u8], at: usize, numbers: &[u32])
    requires { at + 4 * length numbers.now ≤ length out.old }
    ensures { out.new ≡ stored at (all_bytes 4 numbers.now) out.old }
{
    for (i, number) in numbers.iter().enumerate() {
        put_number(out, at + 4 * i, u64::from(*number), 4);
    }
}

// Stores the first n bytes of others at the front.
pub fn copy(from: &[u8], n: usize, out: &mut [u8])
    requires { (n ≤ length from.now) × (n ≤ length out.old) }
    ensures { out.new ≡ stored 0 (take n from.now) out.old }
{
    for i in 0..n {
        out[i] = from[i];
    }
}
