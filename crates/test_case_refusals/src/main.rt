// Shows what the case file reader says of valid and of damaged case files. A line for each: its
// name, then the refusal, or 0 and the number of faces of all definitions.
//
// The file `cases` holds them: their count, then for each its name, a single piece, and the case,
// a text of pieces (`stored`). oracle/cases/make.py makes them, and has the reference job say what
// each is due.
#![tactic(auto)]

use case_definitions::walker;
use case_file::trailer;
use refusal::Refusal;
use std::fs::File;

// The length of a case with every count one past its limit.
const LONGEST: usize = 6_291_548;

// The number of faces of a case, or refusal 1, 2 or 3.
fn read(case: &[u8]) -> Result<usize, Refusal> {
    let n = trailer::open(case)?;
    walker::walk(walker::words(case, n), n.cells)
}

fn print(rt: &impl Print, w: Result<usize, Refusal>) {
    match w {
        Err(r) => {
            let _ = rt.print(r.number());
        }
        Ok(n) => {
            let _ = rt.write_all(b"0 ");
            let _ = rt.print(n as u64);
        }
    }
    let _ = rt.write_all(b"\n");
}

// Prints the line of the next case.
fn show(rt: &impl Print, file: &mut File, case: &mut [u8]) {
    let name = test_stored::piece(file, case, 0);
    let _ = rt.write_all(&case[..name]);
    let _ = rt.write_all(b": ");
    let end = test_stored::assemble(file, case);
    print(rt, read(&case[..end]));
}

fn show_all(rt: &impl Print, file: &mut File) {
    let mut room = [0u8; LONGEST];
    let case: &mut [u8] = &mut room;
    let count = test_stored::number(file, 65536);
    for _ in 0..count {
        show(rt, file, case);
    }
}

fn main(rt: HostRuntime) {
    let path = "cases";
    match File::open(&rt, path) {
        Ok(mut file) => show_all(&rt, &mut file),
        Err(e) => {
            let _ = eprintln!(rt; "{path}: {e}");
        }
    }
}
