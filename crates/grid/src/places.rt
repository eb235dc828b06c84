// One place of a row of a matrix: it takes a trit, or the trit of another row.
ghost use Rattle.std.specs.Prelude.{◌*◌};
ghost use Rattle.trits.specs.Trit.{trit_of, put_v};
ghost use Rattle.trits.specs.Planes.{trit_at};
ghost use Rattle.trits.specs.Rows.{matrix_at};
ghost use Rattle.grid.specs.Steps.{Grid, put_row, ForPutAt, ForPutFrom};

use trits::Planes;

// The trit t is put at place q of row i.
pub fn put_at(ones: &mut [u64], twos: &mut [u64], rows: usize, w: usize, i: usize, q: usize, t: u8)
    requires { ForPutAt ones.old twos.old rows w i q t }
    ensures { Grid ones.new twos.new rows w
        (put_row i (put_v (matrix_at w ones.old twos.old i) q (trit_of t)) (matrix_at w ones.old twos.old)) }
{
    planes::places::put_trit(ones, twos, 64 * (i * w) + q, t);
}

// Place q of row e takes trit j of another row.
pub fn put_from(
    ones: &mut [u64],
    twos: &mut [u64],
    rows: usize,
    w: usize,
    e: usize,
    q: usize,
    v: Planes,
    j: usize,
)
    requires { ForPutFrom ones.old twos.old rows w e q v.ones.now v.twos.now j }
    ensures { Grid ones.new twos.new rows w
        (put_row e (put_v (matrix_at w ones.old twos.old e) q (trit_at v.entry.ones.now v.entry.twos.now j))
        (matrix_at w ones.old twos.old)) }
{
    let t = planes::places::trit_at(v, j);
    put_at(ones, twos, rows, w, e, q, t);
}
