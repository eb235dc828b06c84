// A row of a grid times a lent row, place by place.
ghost use Rattle.trits.specs.Trit.{add_t, sub_t, mul_t, zip_v};
ghost use Rattle.trits.specs.Planes.{trit_at};
ghost use Rattle.trits.specs.Rows.{matrix_at};
ghost use Rattle.grid.specs.Steps.{Grid, put_row, join_product, ForMulBy, ForPutProduct, ForAddProduct};

use super::operations::{Difference, Operation, Sum};
use super::{one_row, two_rows};
use trits::Planes;

// Row i is multiplied by the source: its part of the planes is lent.
pub fn mul_by(ones: &mut [u64], twos: &mut [u64], rows: usize, w: usize, i: usize, source: Planes)
    requires { ForMulBy ones.old twos.old rows w i source.ones.now source.twos.now }
    ensures { Grid ones.new twos.new rows w
        (put_row i (zip_v mul_t (matrix_at w ones.old twos.old i) (trit_at source.entry.ones.now source.entry.twos.now))
        (matrix_at w ones.old twos.old)) }
{
    let a = i * w;
    let e = a + w;
    rows::mul_row(&mut ones[a..e], &mut twos[a..e], source);
}

// Row t becomes row i times the source.
pub fn put_product(
    ones: &mut [u64],
    twos: &mut [u64],
    rows: usize,
    w: usize,
    t: usize,
    i: usize,
    source: Planes,
)
    requires { ForPutProduct ones.old twos.old rows w t i source.ones.now source.twos.now }
    ensures { Grid ones.new twos.new rows w
        (put_row t (zip_v mul_t (matrix_at w ones.old twos.old i) (trit_at source.entry.ones.now source.entry.twos.now))
        (matrix_at w ones.old twos.old)) }
{
    one_row::zero_row(ones, twos, rows, w, t);
    two_rows::add_rows(ones, twos, rows, w, 0, w, t, i);
    mul_by(ones, twos, rows, w, t, source);
}

// Row i times the source is joined to row a by an operation, through row t.
fn join_product<O: Operation>(
    ones: &mut [u64],
    twos: &mut [u64],
    rows: usize,
    w: usize,
    a: usize,
    i: usize,
    t: usize,
    source: Planes,
)
    requires { ForAddProduct ones.old twos.old rows w a i t source.ones.now source.twos.now }
    ensures { Grid ones.new twos.new rows w
        (join_product O.op a i t (trit_at source.entry.ones.now source.entry.twos.now) (matrix_at w ones.old twos.old)) }
{
    put_product(ones, twos, rows, w, t, i, source);
    two_rows::join_rows::<O>(ones, twos, rows, w, 0, w, a, t);
}

// Row i times the source is added to row a, through row t.
pub fn add_product(
    ones: &mut [u64],
    twos: &mut [u64],
    rows: usize,
    w: usize,
    a: usize,
    i: usize,
    t: usize,
    source: Planes,
)
    requires { ForAddProduct ones.old twos.old rows w a i t source.ones.now source.twos.now }
    ensures { Grid ones.new twos.new rows w
        (join_product add_t a i t (trit_at source.entry.ones.now source.entry.twos.now) (matrix_at w ones.old twos.old)) }
{
    join_product::<Sum>(ones, twos, rows, w, a, i, t, source);
}

// Row i times the source is subtracted from row a, through row t.
pub fn sub_product(
    ones: &mut [u64],
    twos: &mut [u64],
    rows: usize,
    w: usize,
    a: usize,
    i: usize,
    t: usize,
    source: Planes,
)
    requires { ForAddProduct ones.old twos.old rows w a i t source.ones.now source.twos.now }
    ensures { Grid ones.new twos.new rows w
        (join_product sub_t a i t (trit_at source.entry.ones.now source.entry.twos.now) (matrix_at w ones.old twos.old)) }
{
    join_product::<Difference>(ones, twos, rows, w, a, i, t, source);
}
