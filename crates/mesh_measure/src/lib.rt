// The geometry of one cell of a case (15).
#![tactic(auto)]

ghost use Rattle.std.specs.Prelude.{◌≡◌, ◌≤◌, ◌<◌, length, get_or};
ghost use Rattle.arith.specs.Lists.{fold};
ghost use Rattle.reading.specs.Result.{steps};
ghost use Rattle.case_file.specs.Trailer.{words_in};
ghost use Rattle.case_definitions.specs.Ensures.{HeadAt};
ghost use Rattle.mesh_area.specs.Layout.{points_in};
ghost use Rattle.mesh_volumes.specs.Geometry.{no_weight, add_triangle, add_face_3d, cell_geometry, cell_of};
ghost use Rattle.mesh_coordinates.specs.Coordinates.{PointBytes};
ghost use Rattle.mesh_measure.specs.Ensures.{faces_at, FaceEntry, AddEdgeExit, AddFaceExit, weight_of};

use arith::Vec3;
use case_definitions::Head;
use case_faces::FaceCursor;
use mesh_volumes::{CellGeometry, Weight};

// A sum with a face more, and the next face.
#[derive(Clone, Copy)]
struct Weighed {
    pub weight: Weight,
    pub next: FaceCursor,
}

// Number k of a face; 0 past its end.
fn number(face: &[u32], k: usize) -> usize
    ensures { result ≡ get_or face.now k 0 }
{
    face.get(k).map_or(0, |x| *x as usize)
}

// One edge of a cell in 2D.
fn add_edge(
    case: &[u8],
    points: usize,
    words: &[u8],
    h: Head,
    c: FaceCursor,
    reference: Vec3,
    weight: Weight,
) -> Weighed
    requires point_bytes { PointBytes case.now points }
    requires face_entry { FaceEntry (words_in words.now) h c }
    ensures { AddEdgeExit (points_in case.now points) (words_in words.now) h c reference
        weight result }
{
    let mut face = [0u32; 8];
    let copied = case_faces::copy_face(words, h, c, &mut face);
    let count = copied.count;
    let a = number(&face[..count], 0);
    let b = number(&face[..count], 1);
    let sum = mesh_volumes::add_triangle(case, points, reference, weight, a, b);
    let next = copied.next;
    Weighed { weight: sum, next }
}

// All edges of a cell in 2D.
fn add_edges(case: &[u8], points: usize, words: &[u8], h: Head, reference: Vec3) -> Weight
    requires point_bytes { PointBytes case.now points }
    requires head_at { HeadAt (words_in words.now) h }
    ensures { result ≡ fold (add_triangle (points_in case.now points) reference) no_weight
        (faces_at (words_in words.now) h) }
{
    let mut sum = mesh_volumes::no_weight();
    let mut c = case_faces::first_face(h);
    for _ in 0..h.faces {
        let t = add_edge(case, points, words, h, c, reference, sum);
        sum = t.weight;
        c = t.next;
    }
    sum
}

// The tetrahedra of a face that is given by its vertices.
fn add_turned(
    case: &[u8],
    points: usize,
    vertices: &mut [u32],
    reference: Vec3,
    weight: Weight,
) -> Option<Weight>
    requires point_bytes { PointBytes case.now points }
    requires vertices_len_bound { length vertices.old ≤ 8 }
    ensures { weight_of result ≡ add_face_3d (points_in case.now points) reference weight
        vertices.old }
{
    mesh_geometry::oriented_face(3, case, points, vertices, reference)?;
    Some(mesh_volumes::add_tetrahedra(case, points, reference, weight, vertices))
}

// One face of a cell in 3D.
fn add_face_3d(
    case: &[u8],
    points: usize,
    words: &[u8],
    h: Head,
    c: FaceCursor,
    reference: Vec3,
    weight: Weight,
) -> Option<Weighed>
    requires point_bytes { PointBytes case.now points }
    requires face_entry { FaceEntry (words_in words.now) h c }
    ensures { AddFaceExit (points_in case.now points) (words_in words.now) h c reference
        weight result }
{
    let mut face = [0u32; 8];
    let copied = case_faces::copy_face(words, h, c, &mut face);
    let count = copied.count;
    let next = copied.next;
    let sum = add_turned(case, points, &mut face[..count], reference, weight)?;
    Some(Weighed { weight: sum, next })
}

// All faces of a cell in 3D.
fn add_faces_3d(
    case: &[u8],
    points: usize,
    words: &[u8],
    h: Head,
    reference: Vec3,
) -> Option<Weight>
    requires point_bytes { PointBytes case.now points }
    requires head_at { HeadAt (words_in words.now) h }
    ensures { weight_of result ≡ steps (add_face_3d (points_in case.now points) reference) no_weight
        (faces_at (words_in words.now) h) }
{
    let mut sum = mesh_volumes::no_weight();
    let mut c = case_faces::first_face(h);
    for _ in 0..h.faces {
        let t = add_face_3d(case, points, words, h, c, reference, sum)?;
        sum = t.weight;
        c = t.next;
    }
    Some(sum)
}

// The centre and the area or volume of the cell of a record.
pub fn cell_geometry(
    dimension: usize,
    case: &[u8],
    points: usize,
    words: &[u8],
    h: Head,
    reference: Vec3,
) -> Option<CellGeometry>
    requires point_bytes { PointBytes case.now points }
    requires head_at { HeadAt (words_in words.now) h }
    ensures { cell_of result ≡ cell_geometry dimension (points_in case.now points) reference
        (faces_at (words_in words.now) h) }
{
    if dimension == 2 {
        return mesh_volumes::centre_2d(reference, add_edges(case, points, words, h, reference));
    }
    let w = add_faces_3d(case, points, words, h, reference)?;
    mesh_volumes::centre_3d(w)
}
