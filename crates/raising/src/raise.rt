// The columns of a lowered matrix, from the last to the first, cleared above the diagonal: twelve at a time.
ghost use Rattle.std.specs.Prelude.{◌-◌};
ghost use Rattle.trits.specs.Rows.{matrix_at};
ghost use Rattle.matrix.specs.Linear.{range};
ghost use Rattle.matrix.specs.Steps.{raised};
ghost use Rattle.grid.specs.Steps.{Rows, Grid};
ghost use Rattle.raising.specs.Steps.{risen, risen_from, Copied, AtEnds, ForRaiseAmong, ForCopyBlock, ForRaiseBlock, ForRaise};

// The rows b to e - 1 are cleared among themselves at the columns of the same numbers, from the last on.
pub fn raise_among(ones: &mut [u64], twos: &mut [u64], rows: usize, w: usize, b: usize, e: usize)
    requires { ForRaiseAmong ones.old twos.old rows w b e }
    ensures { Grid ones.new twos.new rows w (risen_from b (e - b) b (matrix_at w ones.old twos.old)) }
{
    for j in (b..e).rev() {
        elimination::step::clear_rows(ones, twos, rows, w, j / 64, w, j, j, b, j);
    }
}

// The twelve rows from c on are copied to their places in the block: their words from f on, and 0 before.
pub fn copy_block(
    ones: &mut [u64],
    twos: &mut [u64],
    rows: usize,
    w: usize,
    f: usize,
    r: usize,
    c: usize,
)
    requires { ForCopyBlock ones.old twos.old rows w r c }
    ensures rows { Rows ones.new twos.new rows w }
    ensures copied { Copied f r 12 c (matrix_at w ones.old twos.old) (matrix_at w ones.new twos.new) }
{
    for j in 0..12 {
        let p = blocks::block_rows::basis_row(r, j);
        grid::one_row::zero_row(ones, twos, rows, w, p);
        grid::sums::copy_words(ones, twos, rows, w, f, w, p, c + j);
    }
}

// The columns b to e - 1 are cleared in all rows above their own; in the rows before b only the words that have columns from r on are changed.
pub fn raise_block(
    ones: &mut [u64],
    twos: &mut [u64],
    rows: usize,
    w: usize,
    r: usize,
    b: usize,
    e: usize,
)
    requires { ForRaiseBlock ones.old twos.old rows w r b e }
    ensures rows { Rows ones.new twos.new rows w }
    ensures at_ends { AtEnds r b (risen (e - b) b (matrix_at w ones.old twos.old)) (matrix_at w ones.old twos.old)
        (matrix_at w ones.new twos.new) }
{
    raise_among(ones, twos, rows, w, b, e);
    if b == 0 {
        return;
    }
    copy_block(ones, twos, rows, w, r / 64, r, b);
    tables::tables::clear_by_tables(ones, twos, rows, w, r / 64, w, r, b, 0, b);
}

// The columns from r on become what they are when the first r columns, of a matrix of r rows, are cleared above the diagonal.
pub fn raise(ones: &mut [u64], twos: &mut [u64], rows: usize, w: usize, r: usize)
    requires { ForRaise ones.old twos.old rows w r }
    ensures rows { Rows ones.new twos.new rows w }
    ensures at_ends { AtEnds r 0 (raised (range r) r (matrix_at w ones.old twos.old)) (matrix_at w ones.old twos.old)
        (matrix_at w ones.new twos.new) }
{
    for done in (0..r).step_by(12) {
        let e = r - done;
        raise_block(ones, twos, rows, w, r, e.saturating_sub(12), e);
    }
}
