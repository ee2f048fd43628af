// The words of an answer, written to a slice as far as they fit, and what a job stores beside them.
#![tactic(auto)]

pub mod buffers;

ghost use Rattle.std.specs.Prelude.{◌≡◌, ◌<◌, set};
ghost use Rattle.std.proofs.lemmas.List.Edits.{sets};
ghost use Rattle.arith.specs.Limits.{2^32};
ghost use Rattle.answers.specs.Words.{vec_words, values_words};

use arith::{Vec3, bytes};
use reading::Values;

// Word `at`, where there is one.
pub fn put(out: &mut [u64], at: usize, w: u64)
    ensures { out.new ≡ set out.old at w }
{
    if at < out.len() {
        out[at] = w;
    }
}

// Three floats, from `at` on.
pub fn put_vec(out: &mut [u64], at: usize, p: Vec3)
    requires { at < 2^32 }
    ensures { out.new ≡ sets out.old at (vec_words p) }
{
    put(out, at, bytes::bits_of(p.x));
    put(out, at + 1, bytes::bits_of(p.y));
    put(out, at + 2, bytes::bits_of(p.z));
}

// Velocity and pressure, from `at` on.
pub fn put_values(out: &mut [u64], at: usize, v: Values)
    requires { at < 2^32 }
    ensures { out.new ≡ sets out.old at (values_words v) }
{
    put_vec(out, at, v.velocity);
    put(out, at + 3, bytes::bits_of(v.pressure));
}
