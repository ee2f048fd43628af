// Runs the case writer and the edition converter over the inputs of the file `writings`. A line for
// each: its name, then `done` and the length of the file, or `refused` and the number, and the
// FNV-1a hash of the whole output, which is filled with bytes a5 (hexadecimal) before.
//
// The file holds the number of inputs, then for each the length of its name, the name, 0 for the
// writer or 1 for the converter, the length of the output, and texts of pieces (`stored`). Those of
// the writer are five u64 (edition, dimension, and the counts of points, words and cells), the
// points (u64), the words (u32), the velocities and the pressures (u64) and the zones (u32); those
// of the converter one u64, the edition to convert to, and the file. oracle/writings makes the
// file, and has the reference say what each input is due.
#![tactic(auto)]

ghost use Rattle.std.specs.Prelude.{◌≤◌, length};

use arith::bytes;
use case_file::Counts;
use refusal::Refusal;
use std::fs::File;
use test_stored::fnv;

// The longest text: a file of 1,048,577 words.
const TEXT: usize = 4_194_432;

// The most u64 of the writer's parts: 65,537 points, or 16,385 cells.
const LONGS: usize = 196_640;

// The most u32: the records and zones of 16,385 cells.
const SHORTS: usize = 49_184;

// The longest output: a file of 65,536 points.
const OUTPUT: usize = 1_573_120;

// The u64 that starts at `at`; 0 past the end.
fn long_at(text: &[u8], at: usize) -> u64 {
    if text.len() < 8 {
        return 0;
    }
    if text.len() - 8 < at {
        return 0;
    }
    bytes::u64_at(text, at)
}

// The u32 that starts at `at`; 0 past the end.
fn short_at(text: &[u8], at: usize) -> u32 {
    if text.len() < 4 {
        return 0;
    }
    if text.len() - 4 < at {
        return 0;
    }
    bytes::word_at(text, at)
}

// The u64 of a text.
fn put_longs(text: &[u8], room: &mut [u64]) {
    for (k, long) in room.iter_mut().enumerate() {
        *long = long_at(text, 8 * k);
    }
}

// The u32 of a text.
fn put_shorts(text: &[u8], room: &mut [u32]) {
    for (k, short) in room.iter_mut().enumerate() {
        *short = short_at(text, 4 * k);
    }
}

// The end of n numbers that start at `from`, or of the room if there are fewer.
fn end_of(n: usize, from: usize, len: usize) -> usize
    requires { from ≤ len }
    ensures { (from ≤ result) × (result ≤ len) }
{
    if len - from < n {
        return len;
    }
    from + n
}

// Puts the u64 of the next text into the room from `from` on. Where they end.
fn read_longs(file: &mut File, text: &mut [u8], room: &mut [u64], from: usize) -> usize
    requires { from ≤ length room.old }
    ensures { (from ≤ result) × (result ≤ length room.new) }
{
    let n = test_stored::assemble(file, text);
    let end = end_of(n / 8, from, room.len());
    put_longs(&text[..n], &mut room[from..end]);
    end
}

// Puts the u32 of the next text into the room from `from` on. Where they end.
fn read_shorts(file: &mut File, text: &mut [u8], room: &mut [u32], from: usize) -> usize
    requires { from ≤ length room.old }
    ensures { (from ≤ result) × (result ≤ length room.new) }
{
    let n = test_stored::assemble(file, text);
    let end = end_of(n / 4, from, room.len());
    put_shorts(&text[..n], &mut room[from..end]);
    end
}

fn hash_of(out: &[u8]) -> u64 {
    out.iter().fold(fnv::EMPTY, |hash, b| fnv::byte(hash, *b))
}

// Ends the line of an input.
fn show_written(rt: &impl Print, w: Result<usize, Refusal>, out: &[u8]) {
    match w {
        Ok(n) => {
            let _ = rt.write_all(b"done ");
            let _ = rt.print(n as u64);
        }
        Err(refusal) => {
            let _ = rt.write_all(b"refused ");
            let _ = rt.print(refusal.number());
        }
    }
    let _ = rt.write_all(b" ");
    let hash = hash_of(out);
    let _ = print!(rt; "{hash:016x}");
    let _ = rt.write_all(b"\n");
}

fn wide(x: u64) -> usize {
    x as usize
}

fn counts_of(text: &[u8]) -> Counts {
    Counts {
        edition: wide(long_at(text, 0)),
        dimension: wide(long_at(text, 8)),
        points: wide(long_at(text, 16)),
        words: wide(long_at(text, 24)),
        cells: wide(long_at(text, 32)),
    }
}

// The counts of the next text.
fn read_counts(file: &mut File, text: &mut [u8]) -> Counts {
    let n = test_stored::assemble(file, text);
    counts_of(&text[..n])
}

// The first u64 of the next text.
fn read_edition(file: &mut File, text: &mut [u8]) -> usize {
    let n = test_stored::assemble(file, text);
    wide(long_at(&text[..n], 0))
}

// Runs the writer over an output of bytes a5.
fn write(
    rt: &impl Print,
    n: Counts,
    points: &[u64],
    words: &[u32],
    velocities: &[u64],
    pressures: &[u64],
    zones: &[u32],
    out: &mut [u8],
) {
    out.fill(0xa5);
    let w = case_writer::write_case(n, points, words, velocities, pressures, zones, out);
    show_written(rt, w, out);
}

// Runs the writer over parts that stand one after the other, and end at these places: points,
// velocities and pressures among the u64, words and zones among the u32.
fn write_parts(
    rt: &impl Print,
    n: Counts,
    longs: &[u64],
    points: usize,
    velocities: usize,
    pressures: usize,
    shorts: &[u32],
    words: usize,
    zones: usize,
    out: &mut [u8],
)
    requires points_le_velocities { (points ≤ velocities) × (velocities ≤ pressures) × (pressures ≤ length longs.now) }
    requires words_le_zones { (words ≤ zones) × (zones ≤ length shorts.now) }
{
    write(
        rt,
        n,
        &longs[..points],
        &shorts[..words],
        &longs[points..velocities],
        &longs[velocities..pressures],
        &shorts[words..zones],
        out,
    );
}

// Runs the writer over the points and words that were read, and the next texts.
fn show_fields(
    rt: &impl Print,
    file: &mut File,
    n: Counts,
    points: usize,
    words: usize,
    text: &mut [u8],
    longs: &mut [u64],
    shorts: &mut [u32],
    out: &mut [u8],
)
    requires { (points ≤ length longs.old) × (words ≤ length shorts.old) }
{
    let velocities = read_longs(file, text, longs, points);
    let pressures = read_longs(file, text, longs, velocities);
    let zones = read_shorts(file, text, shorts, words);
    write_parts(
        rt, n, longs, points, velocities, pressures, shorts, words, zones, out,
    );
}

// Runs the writer over the next texts.
fn show_write(
    rt: &impl Print,
    file: &mut File,
    text: &mut [u8],
    longs: &mut [u64],
    shorts: &mut [u32],
    out: &mut [u8],
) {
    let n = read_counts(file, text);
    let points = read_longs(file, text, longs, 0);
    let words = read_shorts(file, text, shorts, 0);
    show_fields(rt, file, n, points, words, text, longs, shorts, out);
}

// Runs the converter over an output of bytes a5.
fn convert(rt: &impl Print, case: &[u8], edition: usize, out: &mut [u8]) {
    out.fill(0xa5);
    let w = case_writer::convert(case, edition, out);
    show_written(rt, w, out);
}

// Runs the converter over the next texts.
fn show_convert(rt: &impl Print, file: &mut File, text: &mut [u8], out: &mut [u8]) {
    let edition = read_edition(file, text);
    let n = test_stored::assemble(file, text);
    convert(rt, &text[..n], edition, out);
}

// Shows the next input of the file.
fn show(
    rt: &impl Print,
    file: &mut File,
    text: &mut [u8],
    longs: &mut [u64],
    shorts: &mut [u32],
    out: &mut [u8],
) {
    test_stored::show_name(rt, file, text);
    let converter = test_stored::number(file, 1) == 1;
    let n = test_stored::number(file, out.len());
    if converter {
        show_convert(rt, file, text, &mut out[..n]);
        return;
    }
    show_write(rt, file, text, longs, shorts, &mut out[..n]);
}

// Shows the inputs of the file; `text` is to read them into.
fn show_each(rt: &impl Print, file: &mut File, text: &mut [u8]) {
    let mut longs_room = [0u64; LONGS];
    let mut shorts_room = [0u32; SHORTS];
    let mut out_room = [0u8; OUTPUT];
    let longs: &mut [u64] = &mut longs_room;
    let shorts: &mut [u32] = &mut shorts_room;
    let out: &mut [u8] = &mut out_room;
    let count = test_stored::number(file, 65536);
    for _ in 0..count {
        show(rt, file, text, longs, shorts, out);
    }
}

fn show_all(rt: &impl Print, file: &mut File) {
    let mut text = [0u8; TEXT];
    show_each(rt, file, &mut text);
}

fn main(rt: HostRuntime) {
    let path = "writings";
    match File::open(&rt, path) {
        Ok(mut file) => show_all(&rt, &mut file),
        Err(e) => {
            let _ = eprintln!(rt; "{path}: {e}");
        }
    }
}
