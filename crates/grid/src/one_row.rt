// One row of a matrix: lent, made 0, made a copy of a lent row, negated.
ghost use Rattle.std.specs.Prelude.{◌<◌};
ghost use Rattle.trits.specs.Trit.{t2};
ghost use Rattle.trits.specs.Planes.{trit_at};
ghost use Rattle.trits.specs.Rows.{matrix_at};
ghost use Rattle.matrix.specs.Linear.{zeros};
ghost use Rattle.matrix.specs.Steps.{scale_row};
ghost use Rattle.grid.specs.Steps.{Rows, Grid, HeldRow, put_row, ForPutCopy};

use trits::Planes;

// Row i of a matrix, as a row of its own.
pub fn row_of<'a>(m: Planes<'a>, rows: usize, w: usize, i: usize) -> Planes<'a>
    requires rows { Rows m.ones.now m.twos.now rows w }
    requires i_lt_rows { i < rows }
    ensures { HeldRow result.ones.now result.twos.now w (matrix_at w m.entry.ones.now m.entry.twos.now i) }
{
    let a = i * w;
    let e = a + w;
    Planes {
        ones: &m.ones[a..e],
        twos: &m.twos[a..e],
    }
}

// Row i becomes 0.
pub fn zero_row(ones: &mut [u64], twos: &mut [u64], rows: usize, w: usize, i: usize)
    requires rows { Rows ones.old twos.old rows w }
    requires i_lt_rows { i < rows }
    ensures { Grid ones.new twos.new rows w (put_row i zeros (matrix_at w ones.old twos.old)) }
{
    let a = i * w;
    let e = a + w;
    planes::words::zero_words(&mut ones[a..e]);
    planes::words::zero_words(&mut twos[a..e]);
}

// Row j becomes the lent row h.
pub fn put_copy(ones: &mut [u64], twos: &mut [u64], rows: usize, w: usize, j: usize, h: Planes)
    requires { ForPutCopy ones.old twos.old rows w j h.ones.now h.twos.now }
    ensures { Grid ones.new twos.new rows w
        (put_row j (trit_at h.entry.ones.now h.entry.twos.now) (matrix_at w ones.old twos.old)) }
{
    let a = j * w;
    let e = a + w;
    planes::words::copy_words(&mut ones[a..e], h.ones);
    planes::words::copy_words(&mut twos[a..e], h.twos);
}

// Row i is negated: its part of the planes is lent to the function that exchanges them.
pub fn negate(ones: &mut [u64], twos: &mut [u64], rows: usize, w: usize, i: usize)
    requires rows { Rows ones.old twos.old rows w }
    requires i_lt_rows { i < rows }
    ensures { Grid ones.new twos.new rows w (scale_row i t2 (matrix_at w ones.old twos.old)) }
{
    let a = i * w;
    let e = a + w;
    rows::negate_row(&mut ones[a..e], &mut twos[a..e]);
}
