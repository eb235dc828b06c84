// Three tables of 81 entries each, made in the rows after a matrix, and rows of the matrix cleared by them.
ghost use Rattle.std.specs.Prelude.{suc, ◌*◌};
ghost use Rattle.trits.specs.Rows.{matrix_at};
ghost use Rattle.matrix.specs.Blocks.{less_of, basis, from, Cleared};
ghost use Rattle.grid.specs.Steps.{Rows, Grid, put_row};
ghost use Rattle.tables.specs.Tables.{Extended, Table, Tables, Taken};
ghost use Rattle.tables.specs.Steps.{ForFillTable, ForTable, ForTakeEntries, ForClearByTables};

use super::entries;

// In the table at row z the entries p + 1 to 3 * p - 1 become, in the words f to v - 1, the sums of entry p and those before them.
pub fn fill_table(
    ones: &mut [u64],
    twos: &mut [u64],
    rows: usize,
    w: usize,
    f: usize,
    v: usize,
    z: usize,
    p: usize,
)
    requires { ForFillTable ones.old twos.old rows w f v z p }
    ensures rows { Rows ones.new twos.new rows w }
    ensures extended { Extended f v z p (2 * p) (matrix_at w ones.old twos.old) (matrix_at w ones.new twos.new) }
{
    let n = 2 * p;
    for a in 1..n {
        grid::sums::sum_row(ones, twos, rows, w, f, v, z + (p + a), z + p, z + a);
    }
}

// The table at row z, of its entries 1, 3, 9 and 27, in the words f to v - 1.
pub fn make_table(
    ones: &mut [u64],
    twos: &mut [u64],
    rows: usize,
    w: usize,
    f: usize,
    v: usize,
    z: usize,
)
    requires { ForTable ones.old twos.old rows w f v z 81 }
    ensures rows { Rows ones.new twos.new rows w }
    ensures table { Table f v 81 z (matrix_at w ones.old twos.old) (matrix_at w ones.new twos.new) }
{
    grid::one_row::zero_row(ones, twos, rows, w, z);
    fill_table(ones, twos, rows, w, f, v, z, 1);
    fill_table(ones, twos, rows, w, f, v, z, 3);
    fill_table(ones, twos, rows, w, f, v, z, 9);
    fill_table(ones, twos, rows, w, f, v, z, 27);
}

// The three tables after the first r rows, in the words f to v - 1.
pub fn make_tables(
    ones: &mut [u64],
    twos: &mut [u64],
    rows: usize,
    w: usize,
    f: usize,
    v: usize,
    r: usize,
)
    requires { ForTable ones.old twos.old rows w f v r 243 }
    ensures rows { Rows ones.new twos.new rows w }
    ensures tables { Tables f v r (matrix_at w ones.old twos.old) (matrix_at w ones.new twos.new) }
{
    make_table(ones, twos, rows, w, f, v, r);
    make_table(ones, twos, rows, w, f, v, r + 81);
    make_table(ones, twos, rows, w, f, v, r + 162);
}

// Row i loses what the tables have for its twelve trits from column c on.
pub fn take_entries(
    ones: &mut [u64],
    twos: &mut [u64],
    rows: usize,
    w: usize,
    f: usize,
    v: usize,
    r: usize,
    c: usize,
    i: usize,
)
    requires { ForTakeEntries ones.old twos.old rows w f v r c i (suc i) }
    ensures { Grid ones.new twos.new rows w
        (put_row i (less_of 12 (from c) (basis r (matrix_at w ones.old twos.old)) (matrix_at w ones.old twos.old i))
        (matrix_at w ones.old twos.old)) }
{
    let p = 64 * (i * w) + c;
    let x = entries::twelve_from(ones, p);
    let y = entries::twelve_from(twos, p);
    let a = entries::numbers(x, y);
    let b = entries::numbers(x >> 2, y >> 2);
    let e = entries::entry(a, b);
    let g = entries::entry(a >> 4, b >> 4);
    let h = entries::entry(a >> 8, b >> 8);
    grid::sums::sub_three(
        ones,
        twos,
        rows,
        w,
        f,
        v,
        i,
        r + e,
        r + (81 + g),
        r + (162 + h),
    );
}

// And so each of the rows a to b - 1.
pub fn take_rows(
    ones: &mut [u64],
    twos: &mut [u64],
    rows: usize,
    w: usize,
    f: usize,
    v: usize,
    r: usize,
    c: usize,
    a: usize,
    b: usize,
)
    requires { ForTakeEntries ones.old twos.old rows w f v r c a b }
    ensures rows { Rows ones.new twos.new rows w }
    ensures taken { Taken r c a b (matrix_at w ones.old twos.old) (matrix_at w ones.new twos.new) }
{
    for i in a..b {
        take_entries(ones, twos, rows, w, f, v, r, c, i);
    }
}

// The rows a to b - 1 are cleared at the block's twelve columns from c on; where there are such rows, the tables are made for it.
pub fn clear_by_tables(
    ones: &mut [u64],
    twos: &mut [u64],
    rows: usize,
    w: usize,
    f: usize,
    v: usize,
    r: usize,
    c: usize,
    a: usize,
    b: usize,
)
    requires { ForClearByTables ones.old twos.old rows w f v r c a b }
    ensures rows { Rows ones.new twos.new rows w }
    ensures cleared { Cleared r 12 c a b (matrix_at w ones.old twos.old) (matrix_at w ones.new twos.new) }
{
    if a == b {
        return;
    }
    make_tables(ones, twos, rows, w, f, v, r);
    take_rows(ones, twos, rows, w, f, v, r, c, a, b);
}
