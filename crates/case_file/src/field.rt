// The fields and the zones of a case, by cell: `read_cell` alone gives the values of a cell, and it
// marks the cell. The points of a case are read by `mesh_area::point_at`.
ghost use Rattle.std.specs.Prelude.{◌≡◌, set};
ghost use Rattle.reading.specs.Asks.{ask, give};
ghost use Rattle.reading.specs.Served.{Served};
ghost use Rattle.case_file.specs.Trailer.{opened};
ghost use Rattle.arith.specs.Lists.{all_of};
ghost use Rattle.case_file.specs.Field as Field;
ghost use Rattle.case_file.specs.Field.{values_of, zone_of, zones_of, is_at_most, zones_within};

use crate::Counts;
use arith::{Vec3, bytes};
use reading::Values;

// The velocity and the pressure of cell i; zeros where there is none.
fn values(case: &[u8], n: Counts, i: usize) -> Values
    requires { opened case.now ≡ Ok n }
    ensures { result ≡ values_of case.now i }
{
    if n.cells <= i {
        return Values {
            velocity: Vec3 {
                x: 0.0,
                y: 0.0,
                z: 0.0,
            },
            pressure: 0.0,
        };
    }
    let velocities = 24 * n.points + 4 * n.words;
    let pressures = velocities + 24 * n.cells;
    Values {
        velocity: bytes::vec_at(case, velocities + 24 * i),
        pressure: bytes::float_at(case, pressures + 8 * i),
    }
}

// Marks cell i, where it has a mark at all.
fn mark(marks: &mut [u8], i: usize)
    ensures { marks.new ≡ set marks.old i 1 }
{
    if i < marks.len() {
        marks[i] = 1;
    }
}

// Reads the values of cell i, and marks it.
pub fn read_cell(case: &[u8], n: Counts, marks: &mut [u8], i: usize) -> Values
    requires { opened case.now ≡ Ok n }
    ensures { Served (ask i give) (values_of case.now) marks.old marks.new result }
{
    mark(marks, i);
    values(case, n, i)
}

// The zone of cell i; 0 in edition 1, and for what is no cell.
pub fn zone(case: &[u8], n: Counts, i: usize) -> u32
    requires { opened case.now ≡ Ok n }
    ensures { result ≡ zone_of case.now i }
{
    if n.edition != 2 || n.cells <= i {
        return 0;
    }
    let zones = 24 * n.points + 4 * n.words + 32 * n.cells;
    bytes::word_at(case, zones + 4 * i)
}

// The largest zone; 0 where there is no cell.
fn largest_zone(case: &[u8], n: Counts) -> u32
    requires { opened case.now ≡ Ok n }
    ensures { result ≡ Field.largest (zones_of case.now) }
{
    let mut most = 0u32;
    for i in 0..n.cells {
        most = most.max(zone(case, n, i));
    }
    most
}

// No zone is above `most`.
pub fn zones_at_most(case: &[u8], n: Counts, most: u32) -> bool
    requires { opened case.now ≡ Ok n }
    ensures { result ≡ all_of (is_at_most most) (zones_of case.now) }
{
    largest_zone(case, n) <= most
}

// No zone is above 255.
pub fn zones_within(case: &[u8], n: Counts) -> bool
    requires { opened case.now ≡ Ok n }
    ensures { result ≡ zones_within case.now }
{
    zones_at_most(case, n, 255)
}
