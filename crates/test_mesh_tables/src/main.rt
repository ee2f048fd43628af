// Shows the mesh of each case of the file `cases`. A line for each: its name, then `refused` and
// the number, or the numbers of faces and cells and the FNV-1a hash of the tables. Where the case
// asks for it, the tables follow: a line for each face (vertex count, vertices, owner, 1 and the
// neighbour or 0, centre, area, normal, area vector) and for each cell (face count, faces, neighbour
// count, neighbours in face order, centre, volume), each number in 16 hexadecimal digits. The hash
// is over these numbers, low byte first, in the same order.
//
// The file holds the number of cases, then for each the length of its name, the name, 1 if the
// tables are shown or else 0, the lengths of the two lent areas, the length of the case and its
// bytes. Numbers are u32. oracle/meshes makes it, and has the reference say what each case is due.
#![tactic(auto)]

ghost use Rattle.mesh_area.specs.Layout.{LentWords, LentFloats};

use arith::{Vec3, bytes};
use mesh_area::Sizes;
use std::fs::File;
use std::io::Read;
use test_stored::fnv;

// The longest case, and the longest areas that are lent.
const LONGEST: usize = 65536;

const WORDS: usize = 131072;

const FLOATS: usize = 65536;

// Where the numbers go: into the hash, and to the output if they are shown.
#[derive(Clone, Copy)]
struct Digest {
    hash: u64,
    shown: bool,
}

fn put(rt: &impl Print, d: Digest, x: u64) -> Digest {
    if d.shown {
        let _ = rt.write_all(b" ");
        let _ = print!(rt; "{x:016x}");
    }
    let hash = fnv::word(d.hash, x);
    Digest {
        hash,
        shown: d.shown,
    }
}

fn put_number(rt: &impl Print, d: Digest, n: usize) -> Digest {
    put(rt, d, n as u64)
}

fn put_float(rt: &impl Print, d: Digest, x: f64) -> Digest {
    put(rt, d, bytes::bits_of(x))
}

fn put_vec(rt: &impl Print, d: Digest, v: Vec3) -> Digest {
    let d = put_float(rt, d, v.x);
    let d = put_float(rt, d, v.y);
    put_float(rt, d, v.z)
}

// 1 and the number, or 0 for none.
fn put_found(rt: &impl Print, d: Digest, n: Option<usize>) -> Digest {
    match n {
        Some(i) => put(rt, put(rt, d, 1), i as u64),
        None => put(rt, d, 0),
    }
}

fn end_line(rt: &impl Print, d: Digest) {
    if d.shown {
        let _ = rt.write_all(b"\n");
    }
}

fn put_vertices(rt: &impl Print, d: Digest, words: &[u32], s: Sizes, f: usize) -> Digest
    requires { LentWords s words.now }
{
    let n = mesh_area::vertex_count(words, s, f);
    let mut out = put_number(rt, d, n);
    for k in 0..n {
        out = put_number(rt, out, mesh_area::vertex(words, s, f, k));
    }
    out
}

fn put_face_geometry(rt: &impl Print, d: Digest, floats: &[f64], s: Sizes, f: usize) -> Digest
    requires { LentFloats s floats.now }
{
    let d = put_vec(rt, d, mesh_area::face_centre(floats, s, f));
    let d = put_float(rt, d, mesh_area::face_area(floats, s, f));
    let d = put_vec(rt, d, mesh_area::face_normal(floats, s, f));
    put_vec(rt, d, mesh_area::area_vector(floats, s, f))
}

fn put_face(rt: &impl Print, d: Digest, words: &[u32], floats: &[f64], s: Sizes, f: usize) -> Digest
    requires { LentWords s words.now × LentFloats s floats.now }
{
    let d = put_vertices(rt, d, words, s, f);
    let d = put_number(rt, d, mesh_area::owner_of(words, s, f));
    let d = put_found(rt, d, mesh_area::neighbour_of(words, s, f));
    let d = put_face_geometry(rt, d, floats, s, f);
    end_line(rt, d);
    d
}

fn put_face_table(rt: &impl Print, d: Digest, words: &[u32], floats: &[f64], s: Sizes) -> Digest
    requires { LentWords s words.now × LentFloats s floats.now }
{
    let mut out = d;
    for f in 0..s.faces {
        out = put_face(rt, out, words, floats, s, f);
    }
    out
}

fn put_cell_faces(rt: &impl Print, d: Digest, words: &[u32], s: Sizes, i: usize) -> Digest
    requires { LentWords s words.now }
{
    let n = mesh_area::face_count(words, s, i);
    let mut out = put_number(rt, d, n);
    for k in 0..n {
        out = put_number(rt, out, mesh_area::cell_face(words, s, i, k));
    }
    out
}

fn put_neighbours(rt: &impl Print, d: Digest, words: &[u32], s: Sizes, i: usize) -> Digest
    requires { LentWords s words.now }
{
    let n = mesh_area::neighbour_count(words, s, i);
    let mut out = put_number(rt, d, n);
    for k in 0..n {
        out = put_number(rt, out, mesh_area::neighbour(words, s, i, k));
    }
    out
}

fn put_cell(rt: &impl Print, d: Digest, words: &[u32], floats: &[f64], s: Sizes, i: usize) -> Digest
    requires { LentWords s words.now × LentFloats s floats.now }
{
    let d = put_cell_faces(rt, d, words, s, i);
    let d = put_neighbours(rt, d, words, s, i);
    let d = put_vec(rt, d, mesh_area::centre_of(floats, s, i));
    let d = put_float(rt, d, mesh_area::volume_of(floats, s, i));
    end_line(rt, d);
    d
}

fn put_cell_table(rt: &impl Print, d: Digest, words: &[u32], floats: &[f64], s: Sizes) -> Digest
    requires { LentWords s words.now × LentFloats s floats.now }
{
    let mut out = d;
    for i in 0..s.cells {
        out = put_cell(rt, out, words, floats, s, i);
    }
    out
}

fn put_tables(rt: &impl Print, shown: bool, words: &[u32], floats: &[f64], s: Sizes) -> u64
    requires { LentWords s words.now × LentFloats s floats.now }
{
    let d = Digest {
        hash: fnv::EMPTY,
        shown,
    };
    let d = put_face_table(rt, d, words, floats, s);
    let d = put_cell_table(rt, d, words, floats, s);
    d.hash
}

// The line of a mesh, and its tables.
fn show_mesh(rt: &impl Print, shown: bool, words: &[u32], floats: &[f64], s: Sizes)
    requires { LentWords s words.now × LentFloats s floats.now }
{
    let hash = put_tables(rt, false, words, floats, s);
    let _ = rt.print(s.faces as u64);
    let _ = rt.write_all(b" ");
    let _ = rt.print(s.cells as u64);
    let _ = rt.write_all(b" ");
    let _ = print!(rt; "{hash:016x}");
    let _ = rt.write_all(b"\n");
    if shown {
        put_tables(rt, true, words, floats, s);
    }
}

// Builds a case's mesh and shows it.
fn show_case(rt: &impl Print, shown: bool, case: &[u8], words: &mut [u32], floats: &mut [f64]) {
    match mesh::from_cells(case, words, floats) {
        Err(refusal) => {
            let _ = rt.write_all(b"refused ");
            let _ = rt.print(refusal.number());
            let _ = rt.write_all(b"\n");
        }
        Ok(s) => show_mesh(rt, shown, words, floats, s),
    }
}

// Prints what the next case is due.
fn show(rt: &impl Print, file: &mut File, case: &mut [u8], words: &mut [u32], floats: &mut [f64]) {
    test_stored::show_name(rt, file, case);
    let shown = test_stored::number(file, 1) == 1;
    let w = test_stored::number(file, words.len());
    let f = test_stored::number(file, floats.len());
    let end = test_stored::number(file, case.len());
    let _ = file.read_exact(&mut case[..end]);
    show_case(rt, shown, &case[..end], &mut words[..w], &mut floats[..f]);
}

fn show_all(rt: &impl Print, file: &mut File) {
    let mut case_room = [0u8; LONGEST];
    let mut words_room = [0u32; WORDS];
    let mut floats_room = [0.0; FLOATS];
    let case: &mut [u8] = &mut case_room;
    let words: &mut [u32] = &mut words_room;
    let floats: &mut [f64] = &mut floats_room;
    let count = test_stored::number(file, 65536);
    for _ in 0..count {
        show(rt, file, case, words, floats);
    }
}

fn main(rt: HostRuntime) {
    let path = "cases";
    match File::open(&rt, path) {
        Ok(mut file) => show_all(&rt, &mut file),
        Err(e) => {
            let _ = eprintln!(rt; "{path}: {e}");
        }
    }
}
