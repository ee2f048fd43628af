// Numbers of 32 bits as counts and back, and the places of a round.
ghost use Rattle.std.specs.Prelude.{◌≡◌, ◌<◌};
ghost use Rattle.arith.specs.Limits.{2^32};
ghost use Rattle.arith.specs.Lists.{after};

pub fn wide(x: u32) -> usize
    ensures { (result ≡ x) × (result < 2^32) }
{
    x as usize
}

pub fn narrow(x: usize) -> u32
    requires { x < 2^32 }
    ensures { result ≡ x }
{
    x as u32
}

// The place after i, of n in a round.
pub fn next_of(i: usize, n: usize) -> usize
    requires { i < n }
    ensures { (result ≡ after n i) × (result < n) }
{
    let j = i + 1;
    if j == n { 0 } else { j }
}
