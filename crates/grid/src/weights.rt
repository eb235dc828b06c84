// The weight of a row, and of two rows together.
ghost use Rattle.std.specs.Prelude.{◌≡◌, ◌+◌, ◌*◌};
ghost use Rattle.trits.specs.Trit.{weight_v};
ghost use Rattle.trits.specs.Rows.{matrix_at};
ghost use Rattle.grid.specs.Steps.{ForRowWeight, ForPairWeight};

use super::one_row;
use trits::Planes;

// The weight of row i.
pub fn row_weight(m: Planes, rows: usize, w: usize, i: usize) -> u64
    requires { ForRowWeight m.ones.now m.twos.now rows w i }
    ensures { result ≡ weight_v (matrix_at w m.entry.ones.now m.entry.twos.now i) (64 * w) }
{
    rows::weight(one_row::row_of(m, rows, w, i))
}

// The weight of rows u and v together.
pub fn pair_weight(m: Planes, rows: usize, w: usize, u: usize, v: usize) -> u64
    requires { ForPairWeight m.ones.now m.twos.now rows w u v }
    ensures { result ≡ weight_v (matrix_at w m.entry.ones.now m.entry.twos.now u) (64 * w) + weight_v
        (matrix_at w m.entry.ones.now m.entry.twos.now v) (64 * w) }
{
    let a = row_weight(m, rows, w, u);
    let b = row_weight(m, rows, w, v);
    a + b
}
