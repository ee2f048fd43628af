// The words of a sample, written as far as they fit.
ghost use Rattle.std.specs.Prelude.{◌≡◌, ◌≤◌, ◌<◌};
ghost use Rattle.std.proofs.lemmas.List.Edits.{sets};
ghost use Rattle.answers.specs.Words.{point_words};
ghost use Rattle.planes_crossings.specs.Ensures.{slice_points, SliceLengths};
ghost use Rattle.planes_sums.specs.Words.{sample_words};

use arith::Vec3;
use planes_crossings::slices;
use reading::Values;

// The n points of three slices, from `at` on.
fn put_points(answers: &mut [u64], at: usize, x: &[f64], y: &[f64], z: &[f64], n: usize)
    requires { SliceLengths x.now y.now z.now n × (n ≤ 192) × (at < 2147483648) }
    ensures { answers.new ≡ sets answers.old at
        (point_words (slice_points x.now y.now z.now n)) }
{
    for i in 0..n {
        answers::put_vec(answers, at + 3 * i, slices::point_in(x, y, z, i));
    }
}

// A sample with its polygon in three slices, from `at` on; where the next one goes.
pub(crate) fn put_sample(
    answers: &mut [u64],
    at: usize,
    cell: usize,
    centre: Vec3,
    n: usize,
    v: Values,
    x: &[f64],
    y: &[f64],
    z: &[f64],
)
    requires { SliceLengths x.now y.now z.now n × (n ≤ 192) × (at < 1073741824) }
    ensures { answers.new ≡ sets answers.old at
        (sample_words
        (record {
          geometry = record {
            cell = cell;
            centre = centre;
            polygon = slice_points x.now
                y.now z.now n;
          };
          values = v;
        })) }
{
    answers::put(answers, at, cell as u64);
    answers::put(answers, at + 1, n as u64);
    answers::put_vec(answers, at + 2, centre);
    put_points(answers, at + 5, x, y, z, n);
    answers::put_values(answers, at + 5 + 3 * n, v);
}
