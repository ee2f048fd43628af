// A request: 16 words of 8 bytes, taken apart. Refusals 30 to 33 and 36 to 38.
#![tactic(auto)]

mod codes;
pub mod encode;

ghost use Rattle.std.specs.Prelude.{◌≡◌, ◌+◌, ◌*◌, ◌≤◌, ◌<◌, length, drop, ltb};
ghost use Rattle.arith.specs.Lists.{any_of};
ghost use Rattle.job_requests.specs.Requests as Requests;
ghost use Rattle.job_requests.specs.Requests.{words_at};
ghost use Rattle.job_requests.specs.Bounds.{Allowed};

use arith::{Vec3, bytes};
use lines::{Rake, StreamlineDirection, StreamlineSettings};
use lines_locate::Search;
use lines_millimetres::Rounding;
use lines_step::StreamlineOptions;
use lines_words::Style;
use planes_cut::{Plane, axes};
use refusal::Refusal;

// A row of the table of codes: the dimension that a code needs, how many words it uses, and the
// word at which the arguments of its lines start.
#[derive(Clone, Copy)]
pub struct Code {
    pub dimension: usize,
    pub used: usize,
    pub line: usize,
}

#[derive(Clone, Copy)]
pub enum Request {
    Refused(Refusal),
    Locate(Vec3, Search),
    Velocity(Vec3, Search),
    Streamline(Vec3, StreamlineSettings, Style, Search),
    Rake(Rake, StreamlineSettings, Search),
    Section(Plane),
    Statistics(Plane, u64),
    Integrals(Plane),
    Probe(Plane, Vec3),
}

// Word k of the request at `at`.
fn number(bytes: &[u8], at: usize, k: usize) -> u64
    requires { (at + 128 ≤ length bytes.now) × (k < 16) }
    ensures { result ≡ Requests.number (words_at bytes.now at) k }
{
    bytes::u64_at(bytes, at + 8 * k)
}

// The same as a float.
fn real(bytes: &[u8], at: usize, k: usize) -> f64
    requires { (at + 128 ≤ length bytes.now) × (k < 16) }
    ensures { result ≡ Requests.real (words_at bytes.now at) k }
{
    bytes::float_of(number(bytes, at, k))
}

// Words k to k + 2 as a point.
fn point(bytes: &[u8], at: usize, k: usize) -> Vec3
    requires { (at + 128 ≤ length bytes.now) × (k < 14) }
    ensures { result ≡ Requests.point (words_at bytes.now at) k }
{
    let x = real(bytes, at, k);
    let y = real(bytes, at, k + 1);
    let z = real(bytes, at, k + 2);
    Vec3::new(x, y, z)
}

// A word from k on is not zero.
fn any_set(bytes: &[u8], at: usize, k: usize) -> bool
    requires { at + 128 ≤ length bytes.now }
    ensures { result ≡ any_of (ltb 0) (drop k (words_at bytes.now at)) }
{
    (k..16).any(|i| number(bytes, at, i) > 0)
}

// The direction of the lines is above 1, where the code asks for lines.
fn has_bad_direction(bytes: &[u8], at: usize, c: Code) -> bool
    requires { (at + 128 ≤ length bytes.now) × (c.line < 12) }
    ensures { result ≡ Requests.bad_direction (words_at bytes.now at) c }
{
    c.line > 0 && number(bytes, at, c.line) > 1
}

// Unknown code, unused word not zero, direction above 1.
fn is_ill_formed(bytes: &[u8], at: usize, c: Code) -> bool
    requires { (at + 128 ≤ length bytes.now) × (c.line < 12) }
    ensures { result ≡ Requests.ill_formed (words_at bytes.now at) c }
{
    c.dimension == 0 || any_set(bytes, at, c.used) || has_bad_direction(bytes, at, c)
}

// Direction of the line whose arguments stand from k on.
fn direction(bytes: &[u8], at: usize, k: usize) -> StreamlineDirection
    requires { (at + 128 ≤ length bytes.now) × (k < 16) }
    ensures { result ≡ Requests.direction (words_at bytes.now at) k }
{
    if number(bytes, at, k) == 0 {
        StreamlineDirection::Forward
    } else {
        StreamlineDirection::Backward
    }
}

// Its options.
fn options(bytes: &[u8], at: usize, k: usize) -> StreamlineOptions
    requires { (at + 128 ≤ length bytes.now) × (k < 12) }
    ensures { result ≡ Requests.options (words_at bytes.now at) k }
{
    let step_size = real(bytes, at, k + 1);
    let max_steps = number(bytes, at, k + 2) as usize;
    let max_length = real(bytes, at, k + 3);
    let stagnation_speed = real(bytes, at, k + 4);
    StreamlineOptions {
        step_size,
        max_steps,
        max_length,
        stagnation_speed,
    }
}

// Both.
fn settings(bytes: &[u8], at: usize, k: usize) -> StreamlineSettings
    requires { (at + 128 ≤ length bytes.now) × (k < 12) }
    ensures { result ≡ Requests.settings (words_at bytes.now at) k }
{
    StreamlineSettings {
        direction: direction(bytes, at, k),
        options: options(bytes, at, k),
    }
}

// A line, in a style, by a search.
fn streamline(bytes: &[u8], at: usize, k: usize, style: Style, search: Search) -> Request
    requires { (at + 128 ≤ length bytes.now) × (k < 12) }
    ensures { result ≡ Requests.streamline (words_at bytes.now at) k style search }
{
    let s = settings(bytes, at, k);
    if s.options.max_steps > 65536 {
        return Request::Refused(Refusal::TooManySteps);
    }
    Request::Streamline(point(bytes, at, 1), s, style, search)
}

// The lines from `count` seeds, by a search.
fn rake_of(bytes: &[u8], at: usize, k: usize, count: usize, search: Search) -> Request
    requires { (at + 128 ≤ length bytes.now) × (k < 12) }
    ensures { result ≡ Requests.rake_of (words_at bytes.now at) k count search }
{
    let s = settings(bytes, at, k);
    if s.options.max_steps > 65536 {
        return Request::Refused(Refusal::TooManySteps);
    }
    let rake = Rake {
        start: point(bytes, at, 1),
        end: point(bytes, at, 4),
        count,
    };
    Request::Rake(rake, s, search)
}

fn rake(bytes: &[u8], at: usize, k: usize, search: Search) -> Request
    requires { (at + 128 ≤ length bytes.now) × (k < 12) }
    ensures { result ≡ Requests.rake (words_at bytes.now at) k search }
{
    let count = number(bytes, at, 7) as usize;
    if count < 2 {
        return Request::Refused(Refusal::TooFewSeeds);
    }
    if count > 64 {
        return Request::Refused(Refusal::TooManySteps);
    }
    rake_of(bytes, at, k, count, search)
}

// Codes 1 to 4, by a search; lines' arguments stand from k on.
fn over_field(bytes: &[u8], at: usize, code: u64, k: usize, search: Search) -> Request
    requires { (at + 128 ≤ length bytes.now) × (k < 12) }
    ensures { result ≡ Requests.over_field (words_at bytes.now at) code k search }
{
    match code {
        1 => Request::Locate(point(bytes, at, 1), search),
        2 => Request::Velocity(point(bytes, at, 1), search),
        3 => streamline(bytes, at, k, Style::Points, search),
        _ => rake(bytes, at, k, search),
    }
}

// Origin, u and v.
fn plane_of(bytes: &[u8], at: usize) -> Plane
    requires { at + 128 ≤ length bytes.now }
    ensures { result ≡ Requests.plane_of (words_at bytes.now at) }
{
    let origin = point(bytes, at, 1);
    let u = point(bytes, at, 4);
    let v = point(bytes, at, 7);
    Plane { origin, u, v }
}

// A request over an accepted plane.
fn over_plane(bytes: &[u8], at: usize, code: u64, plane: Plane) -> Request
    requires { at + 128 ≤ length bytes.now }
    ensures { result ≡ Requests.over_plane (words_at bytes.now at) code plane }
{
    match code {
        5 => Request::Section(plane),
        6 => {
            let field = number(bytes, at, 10);
            if field > 5 {
                Request::Refused(Refusal::NoSuchField)
            } else {
                Request::Statistics(plane, field)
            }
        }
        7 => Request::Integrals(plane),
        _ => Request::Probe(plane, point(bytes, at, 10)),
    }
}

// Codes 5 to 8.
fn planar(bytes: &[u8], at: usize, code: u64) -> Request
    requires { at + 128 ≤ length bytes.now }
    ensures { result ≡ Requests.planar (words_at bytes.now at) code }
{
    let plane = plane_of(bytes, at);
    match axes::validate(plane) {
        Err(refusal) => Request::Refused(refusal),
        Ok(()) => over_plane(bytes, at, code, plane),
    }
}

// Codes 1 to 4 and 13 search the bins, the others of a 2D mesh all cells.
fn search_of(code: u64) -> Search
    ensures { result ≡ Requests.search_of code }
{
    if code <= 4 || code == 13 {
        Search::Bins
    } else {
        Search::All
    }
}

// Codes 9 to 12 do what 1 to 4 do.
fn plain_code(code: u64) -> u64
    ensures { result ≡ Requests.plain_code code }
{
    if code > 8 { code - 8 } else { code }
}

// Codes 5 to 8.
fn is_planar(code: u64) -> bool
    ensures { result ≡ Requests.is_planar code }
{
    (5..=8).contains(&code)
}

// A request that is well-formed, over a mesh of this dimension; lines' arguments stand from k on.
fn by_code(bytes: &[u8], at: usize, code: u64, k: usize) -> Request
    requires { (at + 128 ≤ length bytes.now) × (k < 12) }
    ensures { result ≡ Requests.by_code (words_at bytes.now at) code k }
{
    let search = search_of(code);
    if code > 12 {
        return streamline(bytes, at, k, Style::Sheet(Rounding::AwayFromZero), search);
    }
    if is_planar(code) {
        return planar(bytes, at, code);
    }
    over_field(bytes, at, plain_code(code), k, search)
}

// The code needs the other dimension.
fn is_wrong_dimension(flat: bool, c: Code) -> bool
    ensures { result ≡ Requests.wrong_dimension flat c }
{
    if flat {
        c.dimension != 2
    } else {
        c.dimension != 3
    }
}

// The request at `at`, over a 2D mesh or a 3D one.
pub fn request_of(flat: bool, bytes: &[u8], at: usize) -> Request
    requires { at + 128 ≤ length bytes.now }
    ensures { (result ≡ Requests.request_of flat (words_at bytes.now at)) × Allowed result }
{
    let code = number(bytes, at, 0);
    let c = codes::code_of(code);
    if is_ill_formed(bytes, at, c) {
        return Request::Refused(Refusal::IllFormed);
    }
    if is_wrong_dimension(flat, c) {
        return Request::Refused(Refusal::OtherDimension);
    }
    by_code(bytes, at, code, c.line)
}
