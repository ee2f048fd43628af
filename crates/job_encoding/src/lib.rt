// The bytes of one request, from its arguments.
#![tactic(auto)]

ghost use Rattle.std.specs.Prelude.{◌≡◌, ◌≤◌, ◌<◌};
ghost use Rattle.std.proofs.lemmas.List.Edits.{sets};
ghost use Rattle.job_requests.specs.Encode.{bytes_of};
ghost use Rattle.job_encoding.specs.Single.{code_by, sheet_code, direction_word, line_words, plane_words, locate_words, velocity_words, one_line_words, streamline_words, sheet_words, rake_words, section_words, statistics_words, integrals_words, probe_words};

use arith::{Vec3, bytes};
use job_requests::encode;
use lines::{Rake, StreamlineDirection, StreamlineSettings};
use lines_locate::Search;
use planes_cut::Plane;

// Codes 1 to 4 by the bins, 9 to 12 by all cells.
fn code_by(search: Search, code: u64) -> u64
    requires { code ≤ 4 }
    ensures { result ≡ code_by search code }
{
    match search {
        Search::Bins => code,
        Search::All => code + 8,
    }
}

// 13 by the bins, 14 by all cells.
fn sheet_code(search: Search) -> u64
    ensures { result ≡ sheet_code search }
{
    match search {
        Search::Bins => 13,
        Search::All => 14,
    }
}

// 0 forward, 1 backward.
fn direction_word(d: StreamlineDirection) -> u64
    ensures { result ≡ direction_word d }
{
    match d {
        StreamlineDirection::Forward => 0,
        StreamlineDirection::Backward => 1,
    }
}

// Direction and options of a line, from `at` on.
fn put_line(request: &mut [u64], at: usize, settings: StreamlineSettings)
    requires { at < 16 }
    ensures { request.new ≡ sets request.old at (line_words settings) }
{
    let direction = settings.direction;
    let options = settings.options;
    answers::put(request, at, direction_word(direction));
    answers::put(request, at + 1, bytes::bits_of(options.step_size));
    answers::put(request, at + 2, options.max_steps as u64);
    answers::put(request, at + 3, bytes::bits_of(options.max_length));
    answers::put(request, at + 4, bytes::bits_of(options.stagnation_speed));
}

// Origin, u and v.
fn put_plane(request: &mut [u64], plane: Plane)
    ensures { request.new ≡ sets request.old 1 (plane_words plane) }
{
    answers::put_vec(request, 1, plane.origin);
    answers::put_vec(request, 4, plane.u);
    answers::put_vec(request, 7, plane.v);
}

// 16 words as bytes.
fn encoded(request: &[u64; 16]) -> [u8; 128]
    ensures { result ≡ bytes_of request.now }
{
    let mut bytes = [0; 128];
    encode::encode(request, &mut bytes);
    bytes
}

// The cell at a point.
pub fn locate(p: Vec3, search: Search) -> [u8; 128]
    ensures { result ≡ bytes_of (locate_words p search) }
{
    let mut request = [0; 16];
    request[0] = code_by(search, 1);
    answers::put_vec(&mut request, 1, p);
    encoded(&request)
}

// The velocity at a point.
pub fn velocity(p: Vec3, search: Search) -> [u8; 128]
    ensures { result ≡ bytes_of (velocity_words p search) }
{
    let mut request = [0; 16];
    request[0] = code_by(search, 2);
    answers::put_vec(&mut request, 1, p);
    encoded(&request)
}

// One line, by a code.
fn one_line(code: u64, seed: Vec3, settings: StreamlineSettings) -> [u8; 128]
    ensures { result ≡ bytes_of (one_line_words code seed settings) }
{
    let mut request = [0; 16];
    request[0] = code;
    answers::put_vec(&mut request, 1, seed);
    put_line(&mut request, 4, settings);
    encoded(&request)
}

// The line from a seed.
pub fn streamline(seed: Vec3, settings: StreamlineSettings, search: Search) -> [u8; 128]
    ensures { result ≡ bytes_of (streamline_words seed settings search) }
{
    one_line(code_by(search, 3), seed, settings)
}

// Its sheet.
pub fn sheet(seed: Vec3, settings: StreamlineSettings, search: Search) -> [u8; 128]
    ensures { result ≡ bytes_of (sheet_words seed settings search) }
{
    one_line(sheet_code(search), seed, settings)
}

// The lines from the seeds of a rake.
pub fn rake(seeds: Rake, settings: StreamlineSettings, search: Search) -> [u8; 128]
    ensures { result ≡ bytes_of (rake_words seeds settings search) }
{
    let mut request = [0; 16];
    request[0] = code_by(search, 4);
    answers::put_vec(&mut request, 1, seeds.start);
    answers::put_vec(&mut request, 4, seeds.end);
    request[7] = seeds.count as u64;
    put_line(&mut request, 8, settings);
    encoded(&request)
}

// The polygons that a plane cuts.
pub fn section(plane: Plane) -> [u8; 128]
    ensures { result ≡ bytes_of (section_words plane) }
{
    let mut request = [0; 16];
    request[0] = 5;
    put_plane(&mut request, plane);
    encoded(&request)
}

// The statistics of a field over a section.
pub fn statistics(plane: Plane, field: u64) -> [u8; 128]
    ensures { result ≡ bytes_of (statistics_words plane field) }
{
    let mut request = [0; 16];
    request[0] = 6;
    put_plane(&mut request, plane);
    request[10] = field;
    encoded(&request)
}

// The integrals over a section.
pub fn integrals(plane: Plane) -> [u8; 128]
    ensures { result ≡ bytes_of (integrals_words plane) }
{
    let mut request = [0; 16];
    request[0] = 7;
    put_plane(&mut request, plane);
    encoded(&request)
}

// The sample at a point of a section.
pub fn probe(plane: Plane, p: Vec3) -> [u8; 128]
    ensures { result ≡ bytes_of (probe_words plane p) }
{
    let mut request = [0; 16];
    request[0] = 8;
    put_plane(&mut request, plane);
    answers::put_vec(&mut request, 10, p);
    encoded(&request)
}
