// The geometry of one cell: mesh.rs's cell_geometry, as functions of points that are read where
// they are.
#![tactic(auto)]

ghost use Rattle.std.specs.Prelude.{◌≡◌, [], ◌∷◌, ◌+◌, ◌*◌, ◌≤◌, ◌<◌, length, get_or};
ghost use Rattle.arith.specs.Limits.{most_points};
ghost use Rattle.mesh_area.specs.Tables.{point_at};
ghost use Rattle.mesh_area.specs.Layout.{points_in};
ghost use Rattle.mesh_volumes.specs.Geometry as Geometry;

use arith::{Vec3, float};
use mesh_averages::vertex_point;

// A sum of measures, and of centres weighted with them.
#[derive(Clone, Copy)]
pub struct Weight {
    pub measure: f64,
    pub moment: Vec3,
}

#[derive(Clone, Copy)]
pub struct CellGeometry {
    pub centre: Vec3,
    pub volume: f64,
}

// Nothing summed yet.
pub fn no_weight() -> Weight
    ensures { result ≡ Geometry.no_weight }
{
    Weight {
        measure: 0.0,
        moment: Vec3::new(0.0, 0.0, 0.0),
    }
}

fn add_part(weight: Weight, m: f64, centre: Vec3) -> Weight
    ensures { result ≡ Geometry.add_part weight m centre }
{
    let moment = weight.moment;
    Weight {
        measure: weight.measure + m,
        moment: moment.add(centre),
    }
}

// The triangle of `reference` and the edge from point a to point b added: a face in 2D.
pub fn add_triangle(
    case: &[u8],
    points: usize,
    reference: Vec3,
    weight: Weight,
    a: usize,
    b: usize,
) -> Weight
    requires { (points ≤ most_points) × (24 * points ≤ length case.now) }
    ensures { result ≡ Geometry.add_triangle (points_in case.now points) reference weight (a ∷ b ∷ []) }
{
    let p = mesh_area::point_at(case, points, a).sub(reference);
    let q = mesh_area::point_at(case, points, b).sub(reference);
    let doubled = p.x * q.y - q.x * p.y;
    add_part(weight, doubled, p.add(q).scale(doubled))
}

// The centre and the area of a cell in 2D whose triangles are summed.
pub fn centre_2d(reference: Vec3, weight: Weight) -> Option<CellGeometry>
    ensures { Geometry.cell_of result ≡ Geometry.centre_2d reference weight }
{
    let area = float::abs(weight.measure * 0.5);
    if area > 1.0e-12 {
        let moment = weight.moment;
        let centre = reference.add(moment.div(3.0 * weight.measure));
        Some(CellGeometry {
            centre,
            volume: area,
        })
    } else {
        None
    }
}

// The volume of the tetrahedron of `reference` and three points.
fn tetrahedron_volume(reference: Vec3, a: Vec3, b: Vec3, c: Vec3) -> f64
    ensures { result ≡ Geometry.tetrahedron_volume reference a b c }
{
    a.sub(reference)
        .dot(b.sub(reference).cross(c.sub(reference)))
        / 6.0
}

// The tetrahedron of `reference` and three points added.
fn add_volume(reference: Vec3, weight: Weight, a: Vec3, b: Vec3, c: Vec3) -> Weight
    ensures { result ≡ Geometry.add_volume reference weight a b c }
{
    let v = tetrahedron_volume(reference, a, b, c);
    add_part(weight, v, reference.add(a).add(b).add(c).scale(v / 4.0))
}

// The tetrahedron of `reference`, the first point and the points j + 1 and j + 2 added.
fn add_tetrahedron(
    case: &[u8],
    points: usize,
    reference: Vec3,
    weight: Weight,
    vertices: &[u32],
    j: usize,
) -> Weight
    requires { (points ≤ most_points) × (24 * points ≤ length case.now) × (j + 2 < length vertices.now) }
    ensures { result ≡ Geometry.add_tetrahedron (points_in case.now points) reference
        (point_at (points_in case.now points) (get_or vertices.now 0 0)) weight
        (record { from = get_or vertices.now (j + 1) 0; to = get_or vertices.now (j + 2) 0 }) }
{
    let a = vertex_point(case, points, vertices, 0);
    let b = vertex_point(case, points, vertices, j + 1);
    let c = vertex_point(case, points, vertices, j + 2);
    add_volume(reference, weight, a, b, c)
}

// The tetrahedra of `reference` and a face added: a face in 3D, turned outward.
pub fn add_tetrahedra(
    case: &[u8],
    points: usize,
    reference: Vec3,
    weight: Weight,
    vertices: &[u32],
) -> Weight
    requires { (points ≤ most_points) × (24 * points ≤ length case.now) }
    ensures { result ≡ Geometry.add_tetrahedra (points_in case.now points) reference weight
        vertices.now }
{
    let mut sum = weight;
    for j in 0..vertices.len().saturating_sub(2) {
        sum = add_tetrahedron(case, points, reference, sum, vertices, j);
    }
    sum
}

// The centre and the volume of a cell in 3D whose tetrahedra are summed.
pub fn centre_3d(weight: Weight) -> Option<CellGeometry>
    ensures { Geometry.cell_of result ≡ Geometry.centre_3d weight }
{
    let volume = weight.measure;
    if volume > 1.0e-12 {
        let moment = weight.moment;
        let centre = moment.div(volume);
        Some(CellGeometry { centre, volume })
    } else {
        None
    }
}
