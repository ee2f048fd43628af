// The table of request codes. A later code is a row.
ghost use Rattle.std.specs.Prelude.{◌≡◌, ◌<◌};
ghost use Rattle.job_requests.specs.Codes as Codes;

use crate::Code;

// A row of the table.
fn row(dimension: usize, used: usize, line: usize) -> Code
    ensures { result ≡ Codes.row dimension used line }
{
    Code {
        dimension,
        used,
        line,
    }
}

// The row of a code.
pub fn code_of(code: u64) -> Code
    ensures { (result ≡ Codes.code_of code) × (result.line < 12) }
{
    match code {
        1 => row(2, 4, 0),
        2 => row(2, 4, 0),
        3 => row(2, 9, 4),
        4 => row(2, 13, 8),
        5 => row(3, 10, 0),
        6 => row(3, 11, 0),
        7 => row(3, 10, 0),
        8 => row(3, 13, 0),
        9 => row(2, 4, 0),
        10 => row(2, 4, 0),
        11 => row(2, 9, 4),
        12 => row(2, 13, 8),
        13 => row(2, 9, 4),
        14 => row(2, 9, 4),
        _ => row(0, 0, 0),
    }
}
