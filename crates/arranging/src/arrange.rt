// The first pass of a build: the column rule, twelve pivots at a time.
ghost use Rattle.std.specs.Prelude.{length};
ghost use Rattle.trits.specs.Rows.{matrix_at};
ghost use Rattle.grid.specs.Steps.{Rows};
ghost use Rattle.arranging.specs.Columns.{column_rule, most, PivotsTaken, Arranged};
ghost use Rattle.arranging.specs.Steps.{ForTakePivots, ForClearBelow};

use super::columns;

// The pivots of a block that begins at row and column `at`; a column without one changes places with the last of those that are left, in the order too.
// How many are left then is answered.
pub fn take_pivots(
    ones: &mut [u64],
    twos: &mut [u64],
    rows: usize,
    w: usize,
    r: usize,
    at: usize,
    order: &mut [u16],
    left: usize,
) -> usize
    requires { ForTakePivots ones.old twos.old rows w r at order.old left }
    ensures rows { Rows ones.new twos.new rows w }
    ensures pivots_taken { PivotsTaken r at (most r at) left result order.old order.new (matrix_at w ones.old twos.old)
        (matrix_at w ones.new twos.new) }
{
    let end = (r - at).min(12);
    let mut n = left;
    let mut k = 0;
    // a column without a pivot leaves k as it is: no range counts the turns
    while k < end {
        n -= 1;
        if pivoting::pivot::next_pivot(ones, twos, rows, w, at / 64, w, r, at, k, at) {
            k += 1;
        } else {
            columns::exchange_columns(ones, twos, rows, w, at + k, at + k + n);
            columns::exchange(order, at + k, at + k + n);
        }
    }
    n
}

// The column rule: each kept column is cleared in the rows below its own.
pub fn clear_below(
    ones: &mut [u64],
    twos: &mut [u64],
    rows: usize,
    w: usize,
    r: usize,
    order: &mut [u16],
)
    requires { ForClearBelow ones.old twos.old rows w r order.old }
    ensures rows { Rows ones.new twos.new rows w }
    ensures arranged { Arranged r (column_rule r (length order.old) 0 (matrix_at w ones.old twos.old) order.old)
        (matrix_at w ones.new twos.new) order.new }
{
    let mut left = order.len();
    for at in (0..r).step_by(12) {
        let k = (r - at).min(12);
        left = take_pivots(ones, twos, rows, w, r, at, order, left);
        blocks::block_rows::clear_block(ones, twos, rows, w, at / 64, w, r, k, at, at + k, r);
    }
}
