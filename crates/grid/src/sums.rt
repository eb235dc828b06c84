// Rows that become copies, sums and differences of other rows.
// Loops go over indices: the rows that are read and the one that is written stand in the same planes.
ghost use Rattle.trits.specs.Trit.{add_t, zip_v};
ghost use Rattle.trits.specs.Rows.{matrix_at};
ghost use Rattle.grid.specs.Steps.{Grid, put_row, within, less_three, ForAddRows, ForCopyWords, ForSumRow, ForSubThree};

use super::operations::{Difference, Operation, Sum};

// Row d becomes a copy of row i.
pub fn copy_row(ones: &mut [u64], twos: &mut [u64], rows: usize, w: usize, d: usize, i: usize)
    requires { ForAddRows ones.old twos.old rows w d i }
    ensures { Grid ones.new twos.new rows w
        (put_row d (matrix_at w ones.old twos.old i) (matrix_at w ones.old twos.old)) }
{
    copy_words(ones, twos, rows, w, 0, w, d, i);
}

// The words f to v - 1 of row d become those of row i.
pub fn copy_words(
    ones: &mut [u64],
    twos: &mut [u64],
    rows: usize,
    w: usize,
    f: usize,
    v: usize,
    d: usize,
    i: usize,
)
    requires { ForCopyWords ones.old twos.old rows w f v d i }
    ensures { Grid ones.new twos.new rows w
        (put_row d (within f v (matrix_at w ones.old twos.old i) (matrix_at w ones.old twos.old d))
        (matrix_at w ones.old twos.old)) }
{
    let at = d * w;
    let from = i * w;
    for k in f..v {
        let p = at + k;
        let q = from + k;
        ones[p] = ones[q];
        twos[p] = twos[q];
    }
}

// The words f to v - 1 of row d become the sum of those of rows a and b.
pub fn sum_row(
    ones: &mut [u64],
    twos: &mut [u64],
    rows: usize,
    w: usize,
    f: usize,
    v: usize,
    d: usize,
    a: usize,
    b: usize,
)
    requires { ForSumRow ones.old twos.old rows w f v d a b }
    ensures { Grid ones.new twos.new rows w
        (put_row d (within f v (zip_v add_t (matrix_at w ones.old twos.old a) (matrix_at w ones.old twos.old b))
        (matrix_at w ones.old twos.old d)) (matrix_at w ones.old twos.old)) }
{
    let at = d * w;
    let from = a * w;
    let from2 = b * w;
    for k in f..v {
        let p = at + k;
        let q = from + k;
        let s = from2 + k;
        (ones[p], twos[p]) = Sum::words(ones[q], twos[q], ones[s], twos[s]);
    }
}

// The words f to v - 1 of row i lose those of rows a, b and c.
pub fn sub_three(
    ones: &mut [u64],
    twos: &mut [u64],
    rows: usize,
    w: usize,
    f: usize,
    v: usize,
    i: usize,
    a: usize,
    b: usize,
    c: usize,
)
    requires { ForSubThree ones.old twos.old rows w f v i a b c }
    ensures { Grid ones.new twos.new rows w
        (put_row i (within f v (less_three (matrix_at w ones.old twos.old) i a b c) (matrix_at w ones.old twos.old i))
        (matrix_at w ones.old twos.old)) }
{
    let at = i * w;
    let from = a * w;
    let from2 = b * w;
    let from3 = c * w;
    for k in f..v {
        let p = at + k;
        let q0 = from + k;
        let q1 = from2 + k;
        let q2 = from3 + k;
        let (x, y) = Difference::words(ones[p], twos[p], ones[q0], twos[q0]);
        let (x, y) = Difference::words(x, y, ones[q1], twos[q1]);
        (ones[p], twos[p]) = Difference::words(x, y, ones[q2], twos[q2]);
    }
}
