// The values of this crate as those of the crates below.
ghost use Rattle.std.specs.Prelude.{◌≡◌};
ghost use Rattle.capi_values.specs.Convert.{vector_of, plane_of, direction_of, options_of, settings_of, rake_of, search_of, counts_from, file_told};

use crate::{CaseCounts, LineOptions, SectionPlane, Vector, WrittenFile};
use arith::Vec3;
use case_file::Counts;
use lines::{Rake, StreamlineDirection, StreamlineSettings};
use lines_locate::Search;
use lines_step::StreamlineOptions;
use planes_cut::Plane;
use refusal::Refusal;

pub fn vector(p: Vector) -> Vec3
    ensures { result ≡ vector_of p }
{
    Vec3 {
        x: p.x,
        y: p.y,
        z: p.z,
    }
}

pub fn plane(s: SectionPlane) -> Plane
    ensures { result ≡ plane_of s }
{
    Plane {
        origin: vector(s.origin),
        u: vector(s.u),
        v: vector(s.v),
    }
}

fn direction(backward: bool) -> StreamlineDirection
    ensures { result ≡ direction_of backward }
{
    if backward {
        StreamlineDirection::Backward
    } else {
        StreamlineDirection::Forward
    }
}

fn options(o: LineOptions) -> StreamlineOptions
    ensures { result ≡ options_of o }
{
    StreamlineOptions {
        step_size: o.step_size,
        max_steps: o.max_steps,
        max_length: o.max_length,
        stagnation_speed: o.stagnation_speed,
    }
}

pub fn settings(backward: bool, o: LineOptions) -> StreamlineSettings
    ensures { result ≡ settings_of backward o }
{
    StreamlineSettings {
        direction: direction(backward),
        options: options(o),
    }
}

pub fn seeds(start: Vector, end: Vector, count: usize) -> Rake
    ensures { result ≡ rake_of start end count }
{
    Rake {
        start: vector(start),
        end: vector(end),
        count,
    }
}

pub fn search(all_cells: bool) -> Search
    ensures { result ≡ search_of all_cells }
{
    if all_cells { Search::All } else { Search::Bins }
}

pub fn counts(n: CaseCounts) -> Counts
    ensures { result ≡ counts_from n }
{
    Counts {
        dimension: n.dimension,
        points: n.points,
        words: n.words,
        cells: n.cells,
        edition: n.edition,
    }
}

pub fn file(w: Result<usize, Refusal>) -> WrittenFile
    ensures { result ≡ file_told w }
{
    match w {
        Ok(n) => WrittenFile {
            refusal: 0,
            length: n,
        },
        Err(refusal) => WrittenFile {
            refusal: refusal.number(),
            length: 0,
        },
    }
}
