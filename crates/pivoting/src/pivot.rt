// One pivot more of a block, and a block of them.
ghost use Rattle.trits.specs.Rows.{matrix_at};
ghost use Rattle.matrix.specs.Blocks.{basis, pivot_taken, NextPivot, Block};
ghost use Rattle.grid.specs.Steps.{Rows, Grid};
ghost use Rattle.pivoting.specs.Steps.{JoinedRows, Ended, ForJoin, ForBringPivot, ForNextPivot, ForTakeBlock};

use super::search;
use grid::two_rows;
use trits::Planes;

// The block's k rows are cleared at the column c + k, by the row that joins them, which is 0 at all places but those of the words f to v - 1.
pub fn join(
    ones: &mut [u64],
    twos: &mut [u64],
    rows: usize,
    w: usize,
    f: usize,
    v: usize,
    r: usize,
    k: usize,
    c: usize,
)
    requires { ForJoin ones.old twos.old rows w f v r k c }
    ensures rows { Rows ones.new twos.new rows w }
    ensures joined_rows { JoinedRows r k c k (matrix_at w ones.old twos.old) (matrix_at w ones.new twos.new) }
{
    let p = blocks::block_rows::basis_row(r, k);
    for j in 0..k {
        let b = blocks::block_rows::basis_row(r, j);
        elimination::step::clear_row(ones, twos, rows, w, f, v, c + k, p, b);
    }
}

// Row i, whose trit at the column c + k will not be 0, is brought up to date in the words f to v - 1, comes to row at + k, and is made to have 1 there.
pub fn bring_pivot(
    ones: &mut [u64],
    twos: &mut [u64],
    rows: usize,
    w: usize,
    f: usize,
    v: usize,
    r: usize,
    at: usize,
    k: usize,
    c: usize,
    i: usize,
)
    requires { ForBringPivot ones.old twos.old rows w f v r at k c i }
    ensures { Grid ones.new twos.new rows w
        (pivot_taken at k c (basis r (matrix_at w ones.old twos.old)) i (matrix_at w ones.old twos.old)) }
{
    blocks::block_rows::bring(ones, twos, rows, w, f, v, r, k, c, i);
    two_rows::swap_rows(ones, twos, rows, w, at + k, i);
    elimination::step::scale_row(ones, twos, rows, w, c + k, at + k);
}

// The next pivot of the block: its row comes to its place, and joins the block; both are 0 at all places but those of the words f to v - 1.
pub fn next_pivot(
    ones: &mut [u64],
    twos: &mut [u64],
    rows: usize,
    w: usize,
    f: usize,
    v: usize,
    r: usize,
    at: usize,
    k: usize,
    c: usize,
) -> bool
    requires { ForNextPivot ones.old twos.old rows w f v r at k c }
    ensures rows { Rows ones.new twos.new rows w }
    ensures next_pivot { NextPivot result r at k c (matrix_at w ones.old twos.old) (matrix_at w ones.new twos.new) }
{
    let Some(i) = search::find_now(Planes { ones, twos }, rows, w, r, at, k, c) else {
        return false;
    };
    bring_pivot(ones, twos, rows, w, f, v, r, at, k, c, i);
    let p = blocks::block_rows::basis_row(r, k);
    grid::sums::copy_row(ones, twos, rows, w, p, at + k);
    join(ones, twos, rows, w, f, v, r, k, c);
    true
}

// A block's pivots at the columns from c on, up to twelve and to a column that has none; the rows from `at` on are 0 but in the words f to v - 1.
pub fn take_block(
    ones: &mut [u64],
    twos: &mut [u64],
    rows: usize,
    w: usize,
    f: usize,
    v: usize,
    r: usize,
    at: usize,
    c: usize,
    m: usize,
) -> usize
    requires { ForTakeBlock ones.old twos.old rows w f v r at c m }
    ensures rows { Rows ones.new twos.new rows w }
    ensures block { Block r at c m result (matrix_at w ones.old twos.old) (matrix_at w ones.new twos.new) }
    ensures ended { Ended r at c result (matrix_at w ones.old twos.old) }
{
    let most = (m - c).min(r - at).min(12);
    for k in 0..most {
        if !next_pivot(ones, twos, rows, w, f, v, r, at, k, c) {
            return k;
        }
    }
    most
}
