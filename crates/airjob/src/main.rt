// Reads case.bin and requests.bin from the folder it runs in, runs the job, and prints the answers
// and the cells that were read, or the refusal.
#![tactic(auto)]

ghost use Rattle.std.specs.Prelude.{◌≤◌, length};

use std::fs::File;
use std::io::Read;
use std::rt::Files;

// One byte more than a file may have.
const ROOM: usize = 65537;

// More than the text of a job can have: 17 bytes for each answer word, 6 for each mark.
const TEXT: usize = 262144;

// What was opened can be read: a folder cannot.
fn is_readable(file: &mut File) -> bool {
    let mut byte = [0u8; 1];
    file.read(&mut byte[..0]).is_ok()
}

// Reads until the room is full, the file ends or a read fails; how many bytes were read.
fn read_full(file: &mut File, room: &mut [u8]) -> usize
    ensures { result ≤ length room.new }
{
    let mut done = 0;
    // No `for`: how much a read gives is known only once it was made.
    while done < room.len() {
        let n = file.read(&mut room[done..]).unwrap_or(0);
        if n == 0 {
            break;
        }
        done += n;
    }
    done
}

// Reads a file; how many bytes it has. All of the room for a file that is missing, cannot be read or
// is too long.
fn load(files: &impl Files<File = File>, path: &str, room: &mut [u8]) -> usize
    ensures { result ≤ length room.new }
{
    let Ok(mut file) = File::open(files, path) else {
        return room.len();
    };
    if !is_readable(&mut file) {
        return room.len();
    }
    read_full(&mut file, room)
}

// Prints the first n bytes, where there are so many.
fn print(rt: &impl Print, text: &[u8], n: usize) {
    if n <= text.len() {
        let _ = rt.write_all(&text[..n]);
    }
}

fn run(rt: &impl Print, case: &[u8], requests: &[u8]) {
    let mut words = [0u32; 16384];
    let mut floats = [0.0; 8192];
    let mut marks = [0u8; 16384];
    let mut answers = [0u64; 8192];
    let mut text = [0u8; TEXT];
    let n = report::report(
        case,
        requests,
        &mut words,
        &mut floats,
        &mut marks,
        &mut answers,
        &mut text,
    );
    print(rt, &text, n);
}

fn main(rt: HostRuntime) {
    let mut case = [0u8; ROOM];
    let mut requests = [0u8; ROOM];
    let c = load(&rt, "case.bin", &mut case);
    let r = load(&rt, "requests.bin", &mut requests);
    run(&rt, &case[..c], &requests[..r]);
}
