// Reads a file of stored cases. Numbers are u32. A text is a number of pieces, then the pieces: a
// number of bytes, the length that the text has after it, and the bytes, which are repeated up to
// that length. So a text of megabytes is held in few bytes.
//
// Nothing is assumed of what a read gives, so no contract here can say which number or which bytes it is; each
// says where they stand, and that the rest of the room is kept. That a name is printed no contract says.
// A read or a write that fails is passed over: what it did not read stays as it was in the room.
#![tactic(auto)]

ghost use Rattle.std.specs.Prelude.{◌≡◌, ◌-◌, ◌<◌, ◌≤◌, length};
ghost use Rattle.arith.specs.Limits.{2^32};
ghost use Rattle.test_stored.specs.Pieces.{repeated, PieceExit, AssembleExit, ShowNameExit};

use arith::bytes;
use std::fs::File;
use std::io::Read;

pub mod fnv;

// The next number of the file, or `most` if it is above that.
pub fn number(file: &mut File, most: usize) -> usize
    ensures { (result ≤ most) × (result < 2^32) }
{
    let mut four = [0u8; 4];
    let _ = file.read_exact(&mut four);
    let n = bytes::word_at(&four, 0) as usize;
    n.min(most)
}

// Prints the next name of the file; `room` is to read it into.
pub fn show_name(rt: &impl Print, file: &mut File, room: &mut [u8])
    ensures { ShowNameExit room.old room.new }
{
    let n = number(file, room.len());
    let _ = file.read_exact(&mut room[..n]);
    let _ = rt.write_all(&room[..n]);
    let _ = rt.write_all(b": ");
}

// Repeats the n bytes before `from` up to `end`.
fn repeat(room: &mut [u8], n: usize, from: usize, end: usize)
    requires { (n ≤ from) × (end ≤ length room.old) }
    ensures { room.new ≡ repeated (end - from) n from room.old }
{
    for k in from..end {
        room[k] = room[k - n];
    }
}

// Adds the next piece of the file to the first `from` bytes, where there are so many. How many there are then.
pub fn piece(file: &mut File, room: &mut [u8], from: usize) -> usize
    requires { from ≤ length room.old }
    ensures { PieceExit from room.old room.new result }
{
    let n = number(file, room.len() - from);
    let end = number(file, room.len());
    let copied = from + n;
    let _ = file.read_exact(&mut room[from..copied]);
    repeat(room, n, copied, end);
    copied.max(end)
}

// Puts the next pieces of the file together, and answers how many bytes they are.
pub fn assemble(file: &mut File, room: &mut [u8]) -> usize
    ensures { AssembleExit room.old room.new result }
{
    let pieces = number(file, 65536);
    let mut end = 0;
    for _ in 0..pieces {
        end = piece(file, room, end);
    }
    end
}
