// A request's 16 words as bytes, low byte first.
ghost use Rattle.std.specs.Prelude.{◌≡◌, length};
ghost use Rattle.job_requests.specs.Encode.{bytes_of};

// Stores all 16 words, one after the other.
pub fn encode(words: &[u64], bytes: &mut [u8])
    requires { (length words.now ≡ 16) × (length bytes.old ≡ 128) }
    ensures { bytes.new ≡ bytes_of words.now }
{
    arith_bytes::put_u64s(bytes, 0, words)
}
