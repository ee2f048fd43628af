// What `airjob` prints: a line for each answer, then the cells that were read; or the refusal.
#![tactic(auto)]

ghost use Rattle.std.specs.Prelude.{◌+◌, min, ◌≡◌, length, set};
ghost use Rattle.listing.specs.Listing.{decimal_text, hex_text, words_text, answer_text, answers_text, marks_text, done_text, refused_text};
ghost use Rattle.listing.specs.Ensures.{end_in, PutExit, ListingExit};

// Byte `at` of the text, where there is one. Where the next one goes: no further than one past the end.
fn put(text: &mut [u8], at: usize, b: u8) -> usize
    ensures { (text.new ≡ set text.old at b)
        × (result ≡ end_in (length text.old) (at + 1)) }
{
    if at < text.len() {
        text[at] = b;
        at + 1
    } else {
        text.len() + 1
    }
}

// Some bytes, from `at` on. Where the next one goes.
fn put_all(text: &mut [u8], at: usize, bytes: &[u8]) -> usize
    ensures { PutExit bytes.now text.old text.new at result }
{
    let mut to = at;
    for b in bytes {
        to = put(text, to, *b);
    }
    to
}

// A number in decimal.
fn put_decimal(text: &mut [u8], at: usize, n: u64) -> usize
    ensures { PutExit (decimal_text n) text.old text.new at result }
{
    let mut digits = [0u8; 20];
    let k = io::decimal(n, &mut digits);
    put_all(text, at, &digits[..k])
}

// A number in 16 hexadecimal digits.
fn put_hex(text: &mut [u8], at: usize, n: u64) -> usize
    ensures { PutExit (hex_text n) text.old text.new at result }
{
    let mut digits = [0u8; 16];
    let k = io::hex(n, 16, &mut digits);
    put_all(text, at, &digits[..k])
}

// Each word after a space.
fn put_words(text: &mut [u8], at: usize, words: &[u64]) -> usize
    ensures { PutExit (words_text words.now) text.old text.new at result }
{
    let mut to = at;
    for word in words {
        to = put(text, to, b' ');
        to = put_hex(text, to, *word);
    }
    to
}

// The line of the answer whose header is given.
fn put_answer(text: &mut [u8], at: usize, refusal: u64, words: &[u64]) -> usize
    ensures { PutExit (answer_text refusal words.now) text.old text.new at result }
{
    let to = put_decimal(text, at, refusal);
    let to = put(text, to, b' ');
    let to = put_decimal(text, to, words.len() as u64);
    let to = put_words(text, to, words);
    put(text, to, b'\n')
}

// How many words of an answer there are: its count, but not more than those that are left.
fn count_of(n: u64, left: usize) -> usize
    ensures { result ≡ min n left }
{
    n.min(left as u64) as usize
}

// A line for each of `count` answers.
fn put_answers(text: &mut [u8], at: usize, answers: &[u64], count: usize) -> usize
    ensures { PutExit (answers_text count answers.now) text.old text.new at result }
{
    let mut to = at;
    let mut from = 0;
    for _ in 0..count {
        if answers.len() - from < 2 {
            return to;
        }
        let n = count_of(answers[from + 1], answers.len() - from - 2);
        to = put_answer(text, to, answers[from], &answers[from + 2..from + 2 + n]);
        from += 2 + n;
    }
    to
}

// The cells that were read.
fn put_marks(text: &mut [u8], at: usize, marks: &[u8]) -> usize
    ensures { PutExit (marks_text marks.now) text.old text.new at result }
{
    let mut to = at;
    for (i, mark) in marks.iter().enumerate() {
        if *mark == 1 {
            to = put(text, to, b' ');
            to = put_decimal(text, to, i as u64);
        }
    }
    to
}

// The text of a refused job. How long it is, or one more than the room for it.
pub fn put_refusal(text: &mut [u8], k: u64) -> usize
    ensures { ListingExit (refused_text k) text.old text.new result }
{
    let to = put_all(text, 0, b"refused ");
    let to = put_decimal(text, to, k);
    put(text, to, b'\n')
}

// The text of a job that was done. How long it is, or one more than the room for it.
pub fn put_done(text: &mut [u8], answers: &[u64], count: usize, marks: &[u8]) -> usize
    ensures { ListingExit (done_text answers.now count marks.now) text.old
        text.new result }
{
    let to = put_answers(text, 0, answers, count);
    let to = put_all(text, to, b"read");
    let to = put_marks(text, to, marks);
    put(text, to, b'\n')
}
