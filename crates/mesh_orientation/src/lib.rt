// Which side of a face its cells lie on (16).
#![tactic(auto)]

ghost use Rattle.std.specs.Prelude.{◌≡◌};
ghost use Rattle.arith.specs.Lists.{any_of};
ghost use Rattle.mesh_area.specs.Tables.{face_at};
ghost use Rattle.mesh_area.specs.Layout.{faces_in, cells_in, LentWords, LentFloats};
ghost use Rattle.mesh_orientation.specs.Orientation as Orientation;

use arith::Vec3;
use mesh_area::Sizes;

// `to` does not lie beyond `from`, along the normal.
fn behind(to: Vec3, from: Vec3, normal: Vec3) -> bool
    ensures { result ≡ Orientation.behind to from normal }
{
    to.sub(from).dot(normal) <= 1.0e-12
}

// Face f does not lie between the centres of its cells.
fn is_misplaced(words: &[u32], floats: &[f64], s: Sizes, f: usize) -> bool
    requires lent_words { LentWords s words.now }
    requires lent_floats { LentFloats s floats.now }
    ensures { result ≡ Orientation.misplaced (cells_in s words.now floats.now)
        (face_at (faces_in s words.now floats.now) f) }
{
    let centre = mesh_area::face_centre(floats, s, f);
    let normal = mesh_area::face_normal(floats, s, f);
    let owner = mesh_area::owner_of(words, s, f);
    behind(centre, mesh_area::centre_of(floats, s, owner), normal)
        || match mesh_area::neighbour_of(words, s, f) {
            None => false,
            Some(n) => behind(mesh_area::centre_of(floats, s, n), centre, normal),
        }
}

// Some face does not lie between the centres of its cells.
pub fn any_misplaced(words: &[u32], floats: &[f64], s: Sizes) -> bool
    requires lent_words { LentWords s words.now }
    requires lent_floats { LentFloats s floats.now }
    ensures { result ≡ any_of (Orientation.misplaced (cells_in s words.now floats.now))
        (faces_in s words.now floats.now) }
{
    (0..s.faces).any(|f| is_misplaced(words, floats, s, f))
}
