// Runs the job on each pair of a case and a list of requests of the file `pairs`. A line for each:
// its name, then `refused` and the number, or `done`, and the FNV-1a hashes of all bytes of the
// answers and of the marks. Before each job every answer word is 5555555555555555 (hexadecimal) and
// every mark 7; the work areas hold what earlier jobs left there. Where the pair asks for it, what
// `airjob` would print follows.
//
// The file holds the number of pairs, then for each the length of its name, the name, 1 if the
// answers are shown or else 0, the lengths of the two lent areas, of the marks and of the answers,
// the case and the requests, each a text of pieces (`stored`). oracle/replay makes the file, and has
// the reference say what each pair is due.
#![tactic(auto)]

use std::fs::File;
use test_stored::fnv;

// The longest case: 65,537 points.
const CASE: usize = 1_572_920;

// The longest list: 4,097 requests.
const REQUESTS: usize = 524_416;

// The longest buffers that are lent.
const WORDS: usize = 32768;

const FLOATS: usize = 16384;

const MARKS: usize = 16384;

const ANSWERS: usize = 16384;

// Room for what is shown.
const TEXT: usize = 16384;

fn hash_of_answers(answers: &[u64]) -> u64 {
    answers
        .iter()
        .fold(fnv::EMPTY, |hash, word| fnv::word(hash, *word))
}

fn hash_of_marks(marks: &[u8]) -> u64 {
    marks
        .iter()
        .fold(fnv::EMPTY, |hash, mark| fnv::byte(hash, *mark))
}

// Ends the line of a pair with the hashes of its buffers.
fn show_hashes(rt: &impl Print, answers: &[u64], marks: &[u8]) {
    let _ = rt.write_all(b" ");
    let hash_answers = hash_of_answers(answers);
    let _ = print!(rt; "{hash_answers:016x}");
    let _ = rt.write_all(b" ");
    let hash_marks = hash_of_marks(marks);
    let _ = print!(rt; "{hash_marks:016x}");
    let _ = rt.write_all(b"\n");
}

// The first n bytes of the text, if there are as many.
fn show_text(rt: &impl Print, text: &[u8], n: usize) {
    if n <= text.len() {
        let _ = rt.write_all(&text[..n]);
    }
}

fn show_refusal(
    rt: &impl Print,
    shown: bool,
    k: u64,
    marks: &[u8],
    answers: &[u64],
    text: &mut [u8],
) {
    let _ = rt.write_all(b"refused ");
    let _ = rt.print(k);
    show_hashes(rt, answers, marks);
    if shown {
        let n = listing::put_refusal(text, k);
        show_text(rt, text, n);
    }
}

fn show_done(
    rt: &impl Print,
    shown: bool,
    count: usize,
    marks: &[u8],
    answers: &[u64],
    text: &mut [u8],
) {
    let _ = rt.write_all(b"done");
    show_hashes(rt, answers, marks);
    if shown {
        let n = listing::put_done(text, answers, count, marks);
        show_text(rt, text, n);
    }
}

// Runs the job of a pair and shows it.
fn show_job(
    rt: &impl Print,
    shown: bool,
    case: &[u8],
    requests: &[u8],
    words: &mut [u32],
    floats: &mut [f64],
    marks: &mut [u8],
    answers: &mut [u64],
    text: &mut [u8],
) {
    answers.fill(0x5555_5555_5555_5555);
    marks.fill(7);
    match job::job(case, requests, words, floats, marks, answers) {
        Err(refusal) => show_refusal(rt, shown, refusal.number(), marks, answers, text),
        Ok(()) => show_done(rt, shown, requests.len() / 128, marks, answers, text),
    }
}

// Shows the next pair of the file.
fn show(
    rt: &impl Print,
    file: &mut File,
    case: &mut [u8],
    requests: &mut [u8],
    words: &mut [u32],
    floats: &mut [f64],
    marks: &mut [u8],
    answers: &mut [u64],
    text: &mut [u8],
) {
    test_stored::show_name(rt, file, text);
    let shown = test_stored::number(file, 1) == 1;
    let w = test_stored::number(file, words.len());
    let f = test_stored::number(file, floats.len());
    let m = test_stored::number(file, marks.len());
    let a = test_stored::number(file, answers.len());
    let c = test_stored::assemble(file, case);
    let r = test_stored::assemble(file, requests);
    show_job(
        rt,
        shown,
        &case[..c],
        &requests[..r],
        &mut words[..w],
        &mut floats[..f],
        &mut marks[..m],
        &mut answers[..a],
        text,
    );
}

fn show_all(rt: &impl Print, file: &mut File) {
    let mut case_room = [0u8; CASE];
    let mut requests_room = [0u8; REQUESTS];
    let mut words_room = [0u32; WORDS];
    let mut floats_room = [0.0; FLOATS];
    let mut marks_room = [0u8; MARKS];
    let mut answers_room = [0u64; ANSWERS];
    let mut text_room = [0u8; TEXT];
    let case: &mut [u8] = &mut case_room;
    let requests: &mut [u8] = &mut requests_room;
    let words: &mut [u32] = &mut words_room;
    let floats: &mut [f64] = &mut floats_room;
    let marks: &mut [u8] = &mut marks_room;
    let answers: &mut [u64] = &mut answers_room;
    let text: &mut [u8] = &mut text_room;
    let count = test_stored::number(file, 65536);
    for _ in 0..count {
        show(
            rt, file, case, requests, words, floats, marks, answers, text,
        );
    }
}

fn main(rt: HostRuntime) {
    let path = "pairs";
    match File::open(&rt, path) {
        Ok(mut file) => show_all(&rt, &mut file),
        Err(e) => {
            let _ = eprintln!(rt; "{path}: {e}");
        }
    }
}
