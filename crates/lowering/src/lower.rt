// The first pass: columns are tried one after another, twelve pivots at a time.
ghost use Rattle.std.specs.Prelude.{◌≡◌};
ghost use Rattle.trits.specs.Rows.{matrix_at};
ghost use Rattle.matrix.specs.Linear.{rank, range};
ghost use Rattle.matrix.specs.Steps.{eliminated};
ghost use Rattle.matrix.specs.Blocks.{Advanced, Front};
ghost use Rattle.grid.specs.Steps.{Rows};
ghost use Rattle.lowering.specs.Steps.{ForPassBlock, ForLower};

// The next block of pivots is taken, and the rows below are cleared at its columns; as many pivots as it has are answered.
pub fn pass_block(
    ones: &mut [u64],
    twos: &mut [u64],
    rows: usize,
    w: usize,
    v: usize,
    r: usize,
    at: usize,
    c: usize,
    m: usize,
) -> usize
    requires { ForPassBlock ones.old twos.old rows w v r at c m }
    ensures rows { Rows ones.new twos.new rows w }
    ensures advanced { Advanced r at c m result (matrix_at w ones.old twos.old) (matrix_at w ones.new twos.new) }
{
    let k = pivoting::pivot::take_block(ones, twos, rows, w, c / 64, v, r, at, c, m);
    if k == 0 {
        return 0;
    }
    blocks::block_rows::clear_block(ones, twos, rows, w, c / 64, v, r, k, c, at + k, r);
    k
}

// The first m columns of the first r rows are tried, and those with a pivot counted; words from v on are 0 in these rows.
pub fn lower(
    ones: &mut [u64],
    twos: &mut [u64],
    rows: usize,
    w: usize,
    r: usize,
    v: usize,
    m: usize,
) -> usize
    requires { ForLower ones.old twos.old rows w r v m }
    ensures value { result ≡ rank r m (matrix_at w ones.old twos.old) (range m) }
    ensures rows { Rows ones.new twos.new rows w }
    ensures front { Front r (eliminated r (matrix_at w ones.old twos.old) (range m))
        (matrix_at w ones.old twos.old) (matrix_at w ones.new twos.new) }
{
    let mut at = 0; // the rows that have pivots
    let mut c = 0;
    // steps of varying length: no range counts them
    while c < m && at < r {
        let k = pass_block(ones, twos, rows, w, v, r, at, c, m);
        c += k.max(1);
        at += k;
    }
    at
}
