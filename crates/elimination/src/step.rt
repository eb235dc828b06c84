// The row of a pivot, and its column in other rows.
ghost use Rattle.trits.specs.Rows.{matrix_at};
ghost use Rattle.matrix.specs.Steps.{scale_row};
ghost use Rattle.grid.specs.Steps.{Grid, clear_row, taken_out};
ghost use Rattle.elimination.specs.Steps.{ForScaleRow, ForClearRow, ForClearRows};

use grid::{one_row, two_rows};
use trits::Planes;

// The trit of row `at` at column c, which is not 0, is made 1: the row is negated where it is 2.
pub fn scale_row(ones: &mut [u64], twos: &mut [u64], rows: usize, w: usize, c: usize, at: usize)
    requires { ForScaleRow ones.old twos.old rows w c at }
    ensures { Grid ones.new twos.new rows w
        (scale_row at (matrix_at w ones.old twos.old at c) (matrix_at w ones.old twos.old)) }
{
    if planes::places::trit_at(Planes { ones, twos }, 64 * (at * w) + c) == 2 {
        one_row::negate(ones, twos, rows, w, at);
    }
}

// The pivot's row `at`, which is 0 at all places but those of the words f to v - 1, is taken from row i as often as clears column c there.
pub fn clear_row(
    ones: &mut [u64],
    twos: &mut [u64],
    rows: usize,
    w: usize,
    f: usize,
    v: usize,
    c: usize,
    at: usize,
    i: usize,
)
    requires { ForClearRow ones.old twos.old rows w f v c at i }
    ensures { Grid ones.new twos.new rows w (clear_row i at c (matrix_at w ones.old twos.old)) }
{
    match planes::places::trit_at(Planes { ones, twos }, 64 * (i * w) + c) {
        1 => two_rows::sub_rows(ones, twos, rows, w, f, v, i, at),
        2 => two_rows::add_rows(ones, twos, rows, w, f, v, i, at),
        _ => {}
    }
}

// The pivot's row is so taken from the rows `from` to `to` - 1, of which it is none.
pub fn clear_rows(
    ones: &mut [u64],
    twos: &mut [u64],
    rows: usize,
    w: usize,
    f: usize,
    v: usize,
    c: usize,
    at: usize,
    from: usize,
    to: usize,
)
    requires { ForClearRows ones.old twos.old rows w f v c at from to }
    ensures { Grid ones.new twos.new rows w (taken_out from to at c (matrix_at w ones.old twos.old)) }
{
    for i in from..to {
        clear_row(ones, twos, rows, w, f, v, c, at, i);
    }
}
