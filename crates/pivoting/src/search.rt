// The row of a block's next pivot: rows that are left for later are read as the block's rows would leave them.
ghost use Rattle.std.specs.Prelude.{◌≡◌, ◌+◌};
ghost use Rattle.trits.specs.Trit.{number};
ghost use Rattle.trits.specs.Rows.{matrix_at};
ghost use Rattle.matrix.specs.Steps.{pivot_row};
ghost use Rattle.matrix.specs.Blocks.{less_of, basis, from, pending};
ghost use Rattle.pivoting.specs.Steps.{ForTritOf, ForTritNow, ForFindNow, FoundRow};

use trits::Planes;

// The trit of row i at column q.
pub fn trit_of(m: Planes, rows: usize, w: usize, i: usize, q: usize) -> u8
    requires { ForTritOf m.ones.now m.twos.now rows w i q }
    ensures { result ≡ number (matrix_at w m.entry.ones.now m.entry.twos.now i q) }
{
    number_of(m, rows, w, i, q) as u8
}

// The same, as a number to count with, without a branch.
pub fn number_of(m: Planes, rows: usize, w: usize, i: usize, q: usize) -> usize
    requires { ForTritOf m.ones.now m.twos.now rows w i q }
    ensures { result ≡ number (matrix_at w m.entry.ones.now m.entry.twos.now i q) }
{
    tables::entries::number_at(m, 64 * (i * w) + q)
}

// The trit of row i at the column after the block's k, as it is once the block's rows are taken from the row.
pub fn trit_now(m: Planes, rows: usize, w: usize, r: usize, k: usize, c: usize, i: usize) -> usize
    requires { ForTritNow m.ones.now m.twos.now rows w r k c i }
    ensures { result ≡ number (less_of k (from c) (basis r (matrix_at w m.entry.ones.now m.entry.twos.now))
        (matrix_at w m.entry.ones.now m.entry.twos.now i) (c + k)) }
{
    let mut t = number_of(m, rows, w, i, c + k);
    for j in 0..k {
        let p = blocks::block_rows::basis_row(r, j);
        let a = number_of(m, rows, w, i, c + j);
        let b = number_of(m, rows, w, p, c + k);
        t = (t + 2 * (a * b)) % 3;
    }
    t
}

// The first row from at + k on that has a trit there which is not 0.
pub fn find_now(
    m: Planes,
    rows: usize,
    w: usize,
    r: usize,
    at: usize,
    k: usize,
    c: usize,
) -> Option<usize>
    requires { ForFindNow m.ones.now m.twos.now rows w r at k c }
    ensures { FoundRow result r (pivot_row r (pending at k c (basis r (matrix_at w m.entry.ones.now m.entry.twos.now))
        (matrix_at w m.entry.ones.now m.entry.twos.now)) (c + k) (at + k)) }
{
    (at + k..r).find(|&i| trit_now(m, rows, w, r, k, c, i) != 0)
}
