// The work matrix, filled from the secret: a row of it has two half-rows, one after the other.
ghost use Rattle.trits.specs.Rows.{matrix_at};
ghost use Rattle.grid.specs.Steps.{Grid};
ghost use Rattle.build_matrix.specs.Steps.{halves_in, half_of, ForFill};

use super::halves::Half;
use trits::Planes;

// Rows whose halves are made of the m rows of h, after `first` rows, in a matrix of `rows` half-rows of w words.
pub fn fill(
    ones: &mut [u64],
    twos: &mut [u64],
    rows: usize,
    w: usize,
    first: usize,
    m: usize,
    h: Planes,
    left: Half,
    right: Half,
)
    requires { ForFill ones.old twos.old rows w first m h.ones.now h.twos.now left right }
    ensures { let H = matrix_at w h.entry.ones.now h.entry.twos.now in
        Grid ones.new twos.new rows w
        (halves_in first m (λ i. half_of left.entry (H i)) (λ i. half_of right.entry (H i)) (matrix_at w ones.old twos.old)) }
{
    for i in 0..m {
        let row = Planes {
            ones: planes::words::row_part(h.ones, m, w, i),
            twos: planes::words::row_part(h.twos, m, w, i),
        };
        let j = 2 * (first + i);
        left.put(ones, twos, rows, w, j, row);
        right.put(ones, twos, rows, w, j + 1, row);
    }
}
