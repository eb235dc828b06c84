// What the last part adds to each row of the lent matrix, in one column more.
ghost use Rattle.std.specs.Prelude.{◌≡◌, ◌*◌};
ghost use Rattle.trits.specs.Trit.{number, dot_v};
ghost use Rattle.trits.specs.Rows.{matrix_at};
ghost use Rattle.grid.specs.Steps.{Grid};
ghost use Rattle.draw_walk.specs.Walks.{with_products};
ghost use Rattle.draw_walk.specs.Steps.{ForLentDot, ForPutProducts};

use trits::Planes;

// The dot product of row i of a lent matrix and row e.
pub fn lent_dot(a: Planes, rows: usize, w: usize, r: usize, h: Planes, i: usize, e: usize) -> u8
    requires { ForLentDot a.ones.now a.twos.now rows w r h.ones.now h.twos.now i e }
    ensures { result ≡ number (dot_v (matrix_at w h.entry.ones.now h.entry.twos.now i) (matrix_at w a.entry.ones.now a.entry.twos.now e)
        (64 * w)) }
{
    rows::dot(
        grid::one_row::row_of(h, r, w, i),
        grid::one_row::row_of(a, rows, w, e),
    )
}

// Column m of the first r rows becomes the lent matrix times row e.
pub fn put_products(
    ones: &mut [u64],
    twos: &mut [u64],
    rows: usize,
    w: usize,
    r: usize,
    h: Planes,
    m: usize,
    e: usize,
)
    requires { ForPutProducts ones.old twos.old rows w r h.ones.now h.twos.now m e }
    ensures { Grid ones.new twos.new rows w
        (with_products r m (64 * w) (matrix_at w h.entry.ones.now h.entry.twos.now) (matrix_at w ones.old twos.old e)
        (matrix_at w ones.old twos.old)) }
{
    for i in 0..r {
        let t = lent_dot(Planes { ones, twos }, rows, w, r, h, i, e);
        grid::places::put_at(ones, twos, rows, w, i, m, t);
    }
}
