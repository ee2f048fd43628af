// What the points of a cell show at a glance, so that a cell that the plane does not meet costs no
// more than its signs.
ghost use Rattle.std.specs.Prelude.{◌≡◌};
ghost use Rattle.arith.specs.F64.{◌≼◌, abs};
ghost use Rattle.planes_cut.specs.Cut as Cuts;
ghost use Rattle.planes_cut.specs.Ensures.{bare, MeshLent, face_vertex, face_signs, sign_with, signs_of, may_meet};

use crate::{Cut, Signs};
use arith::Vec3;
use mesh_area::Sizes;

// How far p lies from the plane.
pub fn height(cut: Cut, p: Vec3) -> f64
    ensures { result ≡ Cuts.height cut p }
{
    p.sub(cut.plane.origin).dot(cut.normal)
}

// What lies h from the plane lies in it, within the tolerance.
pub fn is_near_at(cut: Cut, h: f64) -> bool
    ensures { result ≡ (abs h ≼ cut.tolerance) }
{
    (h <= cut.tolerance) & (h >= -cut.tolerance)
}

// p lies in the plane, within the tolerance.
pub fn is_near(cut: Cut, p: Vec3) -> bool
    ensures { result ≡ Cuts.near cut p }
{
    is_near_at(cut, height(cut, p))
}

// The signs of some points with those of p.
fn add_sign(cut: Cut, p: Vec3, g: Signs) -> Signs
    ensures { result ≡ sign_with cut g p }
{
    let h = height(cut, p);
    let near = is_near_at(cut, h);
    let below = h < -cut.tolerance;
    let above = h > cut.tolerance;
    Signs {
        near: g.near | near,
        below: g.below | below,
        above: g.above | above,
    }
}

// Vertex k of face f.
pub fn face_vertex(case: &[u8], points: usize, words: &[u32], s: Sizes, f: usize, k: usize) -> Vec3
    requires { MeshLent case.now points s words.now }
    ensures { result ≡ face_vertex (bare case.now points s words.now) f k }
{
    let i = mesh_area::vertex(words, s, f, k);
    mesh_area::point_at(case, points, i)
}

// The signs of some points with those of face f.
fn add_face(
    case: &[u8],
    points: usize,
    words: &[u32],
    s: Sizes,
    cut: Cut,
    f: usize,
    signs: Signs,
) -> Signs
    requires { MeshLent case.now points s words.now }
    ensures { result ≡ face_signs (bare case.now points s words.now) cut signs f }
{
    let mut g = signs;
    let n = mesh_area::vertex_count(words, s, f);
    for k in 0..n {
        g = add_sign(cut, face_vertex(case, points, words, s, f, k), g);
    }
    g
}

// The plane may meet a cell with these signs.
fn meets(g: Signs) -> bool
    ensures { result ≡ may_meet g }
{
    g.near | (g.below & g.above)
}

// The plane may meet the cell: the faces are read up to the one that tells.
pub fn may_meet(case: &[u8], points: usize, words: &[u32], s: Sizes, cut: Cut, cell: usize) -> bool
    requires { MeshLent case.now points s words.now }
    ensures { result ≡ may_meet (signs_of (bare case.now points s words.now) cut cell) }
{
    let mut g = Signs {
        near: false,
        below: false,
        above: false,
    };
    let n = mesh_area::face_count(words, s, cell);
    for j in 0..n {
        let f = mesh_area::cell_face(words, s, cell, j);
        g = add_face(case, points, words, s, cut, f, g);
        if meets(g) {
            return true;
        }
    }
    false
}
