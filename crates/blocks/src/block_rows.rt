// Rows cleared at a block's columns, by the block's rows.
ghost use Rattle.std.specs.Prelude.{◌≡◌, ◌≤◌, ◌<◌};
ghost use Rattle.trits.specs.Rows.{matrix_at};
ghost use Rattle.matrix.specs.Blocks.{basis_row, basis, brought, Cleared};
ghost use Rattle.grid.specs.Steps.{Rows, Grid};
ghost use Rattle.blocks.specs.Steps.{ForBring, ForClearBlock};

// Where row j of a block stands, in a matrix of r rows.
pub fn basis_row(r: usize, j: usize) -> usize
    requires r_bound { r ≤ 4294967296 }
    requires j_bound { j < 12 }
    ensures { result ≡ basis_row r j }
{
    let table = r + 81 * (j / 4);
    match j % 4 {
        0 => table + 1,
        1 => table + 3,
        2 => table + 9,
        _ => table + 27,
    }
}

// Row i is cleared at the k columns from c on, by the block's rows, which are 0 at all places but those of the words f to v - 1.
pub fn bring(
    ones: &mut [u64],
    twos: &mut [u64],
    rows: usize,
    w: usize,
    f: usize,
    v: usize,
    r: usize,
    k: usize,
    c: usize,
    i: usize,
)
    requires { ForBring ones.old twos.old rows w f v r k c i }
    ensures { Grid ones.new twos.new rows w
        (brought k c (basis r (matrix_at w ones.old twos.old)) i (matrix_at w ones.old twos.old)) }
{
    for j in 0..k {
        elimination::step::clear_row(ones, twos, rows, w, f, v, c + j, basis_row(r, j), i);
    }
}

// The rows a to b - 1 are so cleared.
pub fn bring_rows(
    ones: &mut [u64],
    twos: &mut [u64],
    rows: usize,
    w: usize,
    f: usize,
    v: usize,
    r: usize,
    k: usize,
    c: usize,
    a: usize,
    b: usize,
)
    requires { ForClearBlock ones.old twos.old rows w f v r k c a b }
    ensures rows { Rows ones.new twos.new rows w }
    ensures cleared { Cleared r k c a b (matrix_at w ones.old twos.old) (matrix_at w ones.new twos.new) }
{
    for i in a..b {
        bring(ones, twos, rows, w, f, v, r, k, c, i);
    }
}

// The rows a to b - 1 are so cleared, by tables where the block has twelve rows.
pub fn clear_block(
    ones: &mut [u64],
    twos: &mut [u64],
    rows: usize,
    w: usize,
    f: usize,
    v: usize,
    r: usize,
    k: usize,
    c: usize,
    a: usize,
    b: usize,
)
    requires { ForClearBlock ones.old twos.old rows w f v r k c a b }
    ensures rows { Rows ones.new twos.new rows w }
    ensures cleared { Cleared r k c a b (matrix_at w ones.old twos.old) (matrix_at w ones.new twos.new) }
{
    if k == 12 {
        tables::tables::clear_by_tables(ones, twos, rows, w, f, v, r, c, a, b);
    } else {
        bring_rows(ones, twos, rows, w, f, v, r, k, c, a, b);
    }
}
