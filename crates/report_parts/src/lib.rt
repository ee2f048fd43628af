// What `report` does beside the job: the text of a result, and which file is too long.
#![tactic(auto)]

ghost use Rattle.std.specs.Prelude.{◌≡◌};
ghost use Rattle.listing.specs.Ensures.{ListingExit};
ghost use Rattle.report_parts.specs.Parts.{listing_text, is_too_long};

use listing::{put_done, put_refusal};

// The text of a job with this result, 0 where it was done. How long it is, or one more than the room for it.
pub fn put_listing(text: &mut [u8], k: u64, answers: &[u64], count: usize, marks: &[u8]) -> usize
    ensures { ListingExit (listing_text k answers.now count marks.now) text.old
        text.new result }
{
    if k == 0 {
        put_done(text, answers, count, marks)
    } else {
        put_refusal(text, k)
    }
}

// A file of so many bytes is refused before the job.
pub fn is_too_long(length: usize) -> bool
    ensures { result ≡ is_too_long length }
{
    length > 65536
}
