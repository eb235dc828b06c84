// The first part of one half: its columns in the order of the places, one column more for what the last part adds, eliminated in their order.
ghost use Rattle.std.specs.Prelude.{◌≡◌, cond, ◌+◌, ◌*◌, ◌≤◌, ltb, length, take};
ghost use Rattle.trits.specs.Rows.{matrix_at};
ghost use Rattle.matrix.specs.Linear.{rank};
ghost use Rattle.grid.specs.Steps.{Rows, Grid};
ghost use Rattle.draw_walk.specs.Walks.{with_products};
ghost use Rattle.draw_half.specs.Steps.{WordsFor, LoweredFirst, ForPutKnown, ForLowerFirst};

use super::lent::Half;
use trits::Planes;

// The words of a row that have m columns and one more; all w where there is no room for it.
pub fn words_for(w: usize, m: usize) -> usize
    requires { m ≤ 64 * w }
    ensures { WordsFor w m result }
{
    w.min(m / 64 + 1)
}

// Where there are further places than m, column m of the first r rows becomes the lent matrix times row e.
pub fn put_known(
    ones: &mut [u64],
    twos: &mut [u64],
    rows: usize,
    w: usize,
    r: usize,
    h: Planes,
    m: usize,
    n: usize,
    e: usize,
)
    requires { ForPutKnown ones.old twos.old rows w r h.ones.now h.twos.now n e }
    ensures { Grid ones.new twos.new rows w
        (with_products (cond (ltb m n) r 0) m (64 * w) (matrix_at w h.entry.ones.now h.entry.twos.now)
        (matrix_at w ones.old twos.old e) (matrix_at w ones.old twos.old)) }
{
    if m < n {
        draw_walk::known::put_products(ones, twos, rows, w, r, h, m, e);
    }
}

// The first r rows become the lent matrix at the first m places, with what the last part adds, eliminated; the rank of its columns is answered.
pub fn lower_first(
    ones: &mut [u64],
    twos: &mut [u64],
    rows: usize,
    w: usize,
    half: Half,
    m: usize,
    e: usize,
) -> usize
    requires { ForLowerFirst ones.old twos.old rows w half.r half.h.ones.now half.h.twos.now half.order.now m e }
    ensures value { let d = half.entry in let H = matrix_at w d.h.ones.now d.h.twos.now in
        result ≡ rank d.r (length d.order.now) H (take m d.order.now) }
    ensures rows { Rows ones.new twos.new rows w }
    ensures lowered_first { let d = half.entry in let H = matrix_at w d.h.ones.now d.h.twos.now in
        LoweredFirst d.r m d.order.now H
        (matrix_at w ones.old twos.old e) (matrix_at w ones.old twos.old)
        (matrix_at w ones.new twos.new) }
{
    let Half { h, r, order, .. } = half;
    gathering::gather::gather(ones, twos, rows, w, r, h, order, m);
    put_known(ones, twos, rows, w, r, h, m, order.len(), e);
    let v = words_for(w, m);
    lowering::lower::lower(ones, twos, rows, w, r, v, m)
}
