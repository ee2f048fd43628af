// A plain loop that copies bytes: what the time of writing a file is measured against.
ghost use Rattle.std.specs.Prelude.{◌≡◌, ◌≤◌, length};
ghost use Rattle.test_arith_exports.specs.Copy.{shorter, copied};

// The length of the shorter slice.
fn count(from: &[u8], to: &[u8]) -> usize
    ensures { (result ≡ shorter from.now to.now) × (result ≤ length from.now)
        × (result ≤ length to.now) }
{
    from.len().min(to.len())
}

// Copies bytes to the front of others, as far as both go.
#[unsafe(no_mangle)]
pub extern "C" fn hookyellow_copy(from: &[u8], to: &mut [u8])
    ensures { to.new ≡ copied from.now to.old }
{
    let n = count(from, to);
    for i in 0..n {
        to[i] = from[i];
    }
}
