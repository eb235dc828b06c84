// The parts of an order: the last part is supplied and taken from x, and what was solved for at positions comes back to the places of the first.
ghost use Rattle.std.specs.Prelude.{◌+◌, get_or, take, drop};
ghost use Rattle.trits.specs.Planes.{trit_at};
ghost use Rattle.trits.specs.Rows.{matrix_at};
ghost use Rattle.matrix.specs.Linear.{fill};
ghost use Rattle.grid.specs.Steps.{Grid, put_row};
ghost use Rattle.scheme.specs.Draw.{forced_by};
ghost use Rattle.draw_walk.specs.Walks.{lasts_of};
ghost use Rattle.draw_walk.specs.Steps.{ForSupplyLast, ForSupplyForced, ForTakeLast, ForPlaceBack};

use super::places;
use trits::Planes;

// The places of the order from `from` on take the supplied trits from g on.
pub fn supply_last(
    ones: &mut [u64],
    twos: &mut [u64],
    rows: usize,
    w: usize,
    order: &[u16],
    from: usize,
    v: Planes,
    g: usize,
    e: usize,
)
    requires { ForSupplyLast ones.old twos.old rows w order.now from v.ones.now v.twos.now g e }
    ensures { Grid ones.new twos.new rows w
        (put_row e (fill (drop from order.now) (λ j. trit_at v.entry.ones.now v.entry.twos.now (g + j))
        (matrix_at w ones.old twos.old e)) (matrix_at w ones.old twos.old)) }
{
    for (i, &q) in order[from..].iter().enumerate() {
        grid::places::put_from(ones, twos, rows, w, e, usize::from(q), v, g + i);
    }
}

// The places of the order from `from` on are forced by row ev, with the supplied values from g on.
// This loop and the last one differ in their step: a step that is passed in would be no plainer.
pub fn supply_forced(
    ones: &mut [u64],
    twos: &mut [u64],
    rows: usize,
    w: usize,
    order: &[u16],
    from: usize,
    b: Planes,
    c: Planes,
    u: Planes,
    g: usize,
    ev: usize,
    e: usize,
)
    requires { ForSupplyForced ones.old twos.old rows w order.now from b.ones.now b.twos.now c.ones.now c.twos.now u.ones.now u.twos.now g ev e }
    ensures { Grid ones.new twos.new rows w
        (put_row e (fill (drop from order.now)
        (λ j. forced_by (trit_at b.entry.ones.now b.entry.twos.now) (trit_at c.entry.ones.now c.entry.twos.now)
        (matrix_at w ones.old twos.old ev)
        (get_or (drop from order.now) j 0) (trit_at u.entry.ones.now u.entry.twos.now (g + j)))
        (matrix_at w ones.old twos.old e)) (matrix_at w ones.old twos.old)) }
{
    for (i, &q) in order[from..].iter().enumerate() {
        places::force_place(ones, twos, rows, w, usize::from(q), b, c, u, g + i, ev, e);
    }
}

// At the places of the order from `from` on row e becomes row x less it.
pub fn take_last(
    ones: &mut [u64],
    twos: &mut [u64],
    rows: usize,
    w: usize,
    order: &[u16],
    from: usize,
    x: usize,
    e: usize,
)
    requires { ForTakeLast ones.old twos.old rows w order.now from x e }
    ensures { Grid ones.new twos.new rows w
        (put_row e (lasts_of (drop from order.now) (matrix_at w ones.old twos.old x)
        (matrix_at w ones.old twos.old e)) (matrix_at w ones.old twos.old)) }
{
    for &q in &order[from..] {
        places::take_place(ones, twos, rows, w, x, e, usize::from(q));
    }
}

// The first m places of the order take in row e what stands in row t by position.
pub fn place_back(
    ones: &mut [u64],
    twos: &mut [u64],
    rows: usize,
    w: usize,
    order: &[u16],
    m: usize,
    t: usize,
    e: usize,
)
    requires { ForPlaceBack ones.old twos.old rows w order.now m t e }
    ensures { Grid ones.new twos.new rows w
        (put_row e (fill (take m order.now) (matrix_at w ones.old twos.old t)
        (matrix_at w ones.old twos.old e)) (matrix_at w ones.old twos.old)) }
{
    for (i, &q) in order[..m].iter().enumerate() {
        places::copy_place(ones, twos, rows, w, t, i, e, usize::from(q));
    }
}
