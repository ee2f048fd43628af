// The answer to one request, over a room in the work area.
#![tactic(auto)]

ghost use Rattle.std.specs.Prelude.{◌≡◌, List, ℕ, ◌≤◌, length, Float};
ghost use Rattle.std.proofs.lemmas.List.Edits.{sets};
ghost use Rattle.reading.specs.declared.Values.{Values};
ghost use Rattle.answers.specs.Ensures.{Reply};
ghost use Rattle.mesh_area.specs.Layout.{points_in, mesh_in};
ghost use Rattle.case_file.specs.Field.{values_of};
ghost use Rattle.lines_polygon.specs.Contains.{position_word};
ghost use Rattle.lines_velocity.specs.Ensures.{tracer_field, LocateEntry, TracerEntry};
ghost use Rattle.planes_samples.specs.Ensures as Planes;
ghost use Rattle.job_requests.specs.declared.Request.TheVariants as Code;
ghost use Rattle.job_requests.specs.Bounds.{Allowed};
ghost use Rattle.job_room.specs.Room.{solid};
ghost use Rattle.job_room.specs.Ensures.{room_in, counts_in, RoomStands};
ghost use Rattle.job_serve.specs.Serve as Serve;
ghost use Rattle.job_serve.specs.Ensures.{left_under};

use arith::Vec3;
use case_file::Counts;
use job_requests::Request;
use job_room::Place;
use lines::{integrate, rakes};
use lines_locate::{Located, Search};
use lines_polygon::Position;
use lines_velocity::{Tracer, interpolate};
use mesh_area::Sizes;
use planes::codes;
use refusal::Refusal;

// The cell, or 2^64-1 for none.
fn cell_word(r: Option<usize>) -> u64
    ensures { result ≡ Serve.cell_word r }
{
    match r {
        Some(i) => i as u64,
        None => 0xffff_ffff_ffff_ffff,
    }
}

// 0 for none, 1 on an edge, 2 inside.
fn position_word(p: Position) -> u64
    ensures { result ≡ position_word p }
{
    match p {
        Position::Outside => 0,
        Position::Edge => 1,
        Position::Inside => 2,
    }
}

// The cell, and where the point lies to its polygon.
fn put_located(r: Located, out: &mut [u64])
    ensures { out.new ≡ sets out.old 0 (Serve.located_words r) }
{
    let cell = r.cell;
    let position = r.position;
    answers::put(out, 0, cell_word(cell));
    answers::put(out, 1, position_word(position));
}

// 1 and the velocity, or four zeros.
fn put_velocity(r: Option<Vec3>, out: &mut [u64])
    ensures { out.new ≡ sets out.old 0 (Serve.velocity_words r) }
{
    match r {
        Some(v) => {
            answers::put(out, 0, 1);
            answers::put_vec(out, 1, v);
        }
        None => {
            answers::put(out, 0, 0);
            answers::put_vec(out, 1, Vec3::new(0.0, 0.0, 0.0));
        }
    }
}

// Codes 1 and 9.
fn serve_locate(
    words: &[u32],
    floats: &[f64],
    t: Tracer,
    out: &mut [u64],
    p: Vec3,
    search: Search,
) -> Result<usize, Refusal>
    requires { LocateEntry words.now floats.now t }
    ensures { (case : List ℕ) (f : ℕ → Values) (m : List ℕ) → Reply
        (Serve.serve_flat (tracer_field t case words.now floats.now) (Code.Locate p search))
        f out.old result out.old out.new m m }
{
    let tracer = lines_velocity::searching(t, search);
    put_located(interpolate::locate(words, floats, tracer, p), out);
    Ok(2)
}

// Codes 2 and 10.
fn serve_velocity(
    case: &[u8],
    words: &[u32],
    floats: &[f64],
    t: Tracer,
    marks: &mut [u8],
    out: &mut [u64],
    p: Vec3,
    search: Search,
) -> Result<usize, Refusal>
    requires { TracerEntry case.now words.now floats.now t }
    ensures { Reply (Serve.serve_flat
        (tracer_field t case.now words.now floats.now)
        (Code.Velocity p search)) (values_of case.now) out.old result out.old
        out.new marks.old marks.new }
{
    let tracer = lines_velocity::searching(t, search);
    let v = interpolate::velocity_at(case, words, floats, tracer, marks, p);
    put_velocity(v, out);
    Ok(4)
}

// Codes 1 to 4 and 9 to 14.
fn serve_flat(
    case: &[u8],
    words: &[u32],
    floats: &[f64],
    t: Tracer,
    marks: &mut [u8],
    out: &mut [u64],
    q: Request,
) -> Result<usize, Refusal>
    requires tracer_entry { TracerEntry case.now words.now floats.now t }
    requires allowed { Allowed q }
    ensures { Reply (Serve.serve_flat
        (tracer_field t case.now words.now floats.now) q)
        (values_of case.now) out.old result out.old out.new marks.old
        marks.new }
{
    match q {
        Request::Refused(k) => Err(k),
        Request::Locate(p, search) => serve_locate(words, floats, t, out, p, search),
        Request::Velocity(p, search) => {
            serve_velocity(case, words, floats, t, marks, out, p, search)
        }
        Request::Streamline(p, s, style, search) => {
            let tracer = lines_velocity::searching(t, search);
            integrate::integrate(case, words, floats, tracer, marks, out, p, s, style)
        }
        Request::Rake(rake, s, search) => {
            let tracer = lines_velocity::searching(t, search);
            rakes::integrate_rake(case, words, floats, tracer, marks, out, rake, s)
        }
        _ => Err(Refusal::OtherDimension), // request_of gave 31 already
    }
}

// Codes 5 to 8.
fn serve_solid(
    case: &[u8],
    words: &[u32],
    n: Counts,
    s: Sizes,
    marks: &mut [u8],
    out: &mut [u64],
    q: Request,
) -> Result<usize, Refusal>
    requires { Planes.SampleEntry case.now n s words.now marks.old }
    ensures { (floats : List Float) → Reply
        (Serve.serve_solid (mesh_in (points_in case.now n.points) s words.now floats) q)
        (values_of case.now) (left_under (solid (mesh_in (points_in case.now n.points) s
        words.now floats)) q (values_of case.now) out.old) result out.old
        out.new marks.old marks.new }
{
    match q {
        Request::Refused(k) => Err(k),
        Request::Section(plane) => codes::section(case, n, words, s, plane, out, marks),
        Request::Statistics(plane, field) => {
            codes::statistics(case, n, words, s, plane, field, out, marks)
        }
        Request::Integrals(plane) => codes::integrals(case, n, words, s, plane, out, marks),
        Request::Probe(plane, p) => codes::probe(case, n, words, s, plane, p, out, marks),
        _ => Err(Refusal::OtherDimension), // request_of gave 31 already
    }
}

// How many words the answer has, which go to `out` as far as they fit; or the refusal.
pub fn serve(
    case: &[u8],
    words: &[u32],
    floats: &[f64],
    place: Place,
    marks: &mut [u8],
    out: &mut [u64],
    q: Request,
) -> Result<usize, Refusal>
    requires { RoomStands case.now words.now floats.now place × ((counts_in place).cells ≤ length marks.old)
        × Allowed q }
    ensures { Reply (Serve.serve (room_in case.now words.now floats.now place)
        q) (values_of case.now) (left_under (room_in case.now words.now
        floats.now place) q (values_of case.now) out.old) result out.old
        out.new marks.old marks.new }
{
    match place {
        Place::Flat(t) => serve_flat(case, words, floats, t, marks, out, q),
        Place::Solid(n, s) => serve_solid(case, words, n, s, marks, out, q),
    }
}
