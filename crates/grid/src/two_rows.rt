// Two rows of one matrix: exchanged, added, subtracted, one taken from the other, and their dot product.
// Loops go over indices: the row that is read and the one that is written stand in the same planes.
ghost use Rattle.std.specs.Prelude.{◌≡◌, ◌*◌, ◌<◌};
ghost use Rattle.trits.specs.Trit.{add_t, sub_t, zip_v, number, dot_v};
ghost use Rattle.trits.specs.Rows.{matrix_at};
ghost use Rattle.matrix.specs.Steps.{swap_rows};
ghost use Rattle.grid.specs.Steps.{Grid, Swapped, put_row, join_row, ForSwapPlane, ForSwapRows, ForRowDot, ForAddRows, ForAddWords};

use super::one_row;
use super::operations::{Difference, Operation, Sum};
use trits::Planes;

// Rows a and b of one plane change places.
pub fn swap_plane(plane: &mut [u64], rows: usize, w: usize, a: usize, b: usize)
    requires { ForSwapPlane plane.old rows w a b }
    ensures { Swapped a b w plane.old plane.new }
{
    let at = a * w;
    let from = b * w;
    for j in 0..w {
        plane.swap(at + j, from + j);
    }
}

// Rows a and b change places.
pub fn swap_rows(ones: &mut [u64], twos: &mut [u64], rows: usize, w: usize, a: usize, b: usize)
    requires { ForSwapRows ones.old twos.old rows w a b }
    ensures { Grid ones.new twos.new rows w (swap_rows a b (matrix_at w ones.old twos.old)) }
{
    if a == b {
        return;
    }
    swap_plane(ones, rows, w, a, b);
    swap_plane(twos, rows, w, a, b);
}

// Row j is joined to row i by an operation, in the words f to v - 1: row j is 0 at all others.
pub(crate) fn join_rows<O: Operation>(
    ones: &mut [u64],
    twos: &mut [u64],
    rows: usize,
    w: usize,
    f: usize,
    v: usize,
    i: usize,
    j: usize,
)
    requires { ForAddWords ones.old twos.old rows w f v i j }
    ensures { Grid ones.new twos.new rows w (join_row O.op i j (matrix_at w ones.old twos.old)) }
{
    let at = i * w;
    let from = j * w;
    for k in f..v {
        let p = at + k;
        let q = from + k;
        (ones[p], twos[p]) = O::words(ones[p], twos[p], ones[q], twos[q]);
    }
}

// Row j is added to row i, in the words f to v - 1: row j is 0 at all others.
pub fn add_rows(
    ones: &mut [u64],
    twos: &mut [u64],
    rows: usize,
    w: usize,
    f: usize,
    v: usize,
    i: usize,
    j: usize,
)
    requires { ForAddWords ones.old twos.old rows w f v i j }
    ensures { Grid ones.new twos.new rows w (join_row add_t i j (matrix_at w ones.old twos.old)) }
{
    join_rows::<Sum>(ones, twos, rows, w, f, v, i, j);
}

// Row j is subtracted from row i, in the words f to v - 1: row j is 0 at all others.
pub fn sub_rows(
    ones: &mut [u64],
    twos: &mut [u64],
    rows: usize,
    w: usize,
    f: usize,
    v: usize,
    i: usize,
    j: usize,
)
    requires { ForAddWords ones.old twos.old rows w f v i j }
    ensures { Grid ones.new twos.new rows w (join_row sub_t i j (matrix_at w ones.old twos.old)) }
{
    join_rows::<Difference>(ones, twos, rows, w, f, v, i, j);
}

// Row i is taken from row j, and becomes what is left.
pub fn take_from(ones: &mut [u64], twos: &mut [u64], rows: usize, w: usize, i: usize, j: usize)
    requires { ForAddRows ones.old twos.old rows w i j }
    ensures { Grid ones.new twos.new rows w
        (put_row i (zip_v sub_t (matrix_at w ones.old twos.old j) (matrix_at w ones.old twos.old i))
        (matrix_at w ones.old twos.old)) }
{
    one_row::negate(ones, twos, rows, w, i);
    add_rows(ones, twos, rows, w, 0, w, i, j);
}

// The dot product of rows i and j.
pub fn row_dot(m: Planes, rows: usize, w: usize, i: usize, j: usize) -> u8
    requires { ForRowDot m.ones.now m.twos.now rows w i j }
    ensures { result ≡ number (dot_v (matrix_at w m.entry.ones.now m.entry.twos.now i) (matrix_at w m.entry.ones.now m.entry.twos.now j)
        (64 * w)) }
{
    rows::dot(
        one_row::row_of(m, rows, w, i),
        one_row::row_of(m, rows, w, j),
    )
}
