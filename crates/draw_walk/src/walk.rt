// The walk along the columns of a lowered matrix, which stand for the first places of an order: those passed over take what is supplied, and the pivots are
// solved from the last row to the first.
ghost use Rattle.std.specs.Prelude.{◌≡◌, cond, suc, ◌*◌, ◌<◌};
ghost use Rattle.trits.specs.Trit.{put_v, dot_v, sub_t};
ghost use Rattle.trits.specs.Planes.{trit_at};
ghost use Rattle.trits.specs.Rows.{matrix_at};
ghost use Rattle.matrix.specs.Linear.{range};
ghost use Rattle.matrix.specs.Steps.{backed};
ghost use Rattle.grid.specs.Steps.{Grid, put_row};
ghost use Rattle.draw_walk.specs.Walks.{is_next, pivot_place, firsts_of};
ghost use Rattle.draw_walk.specs.Steps.{ForIsNext, ForSupplyPlace, ForSupply, ForPivotPlace, ForLessen, ForSolvePivots};

use super::places;
use trits::Planes;

// Whether place q has the next pivot, c of the r rows having theirs.
pub fn is_next(a: Planes, rows: usize, w: usize, r: usize, c: usize, q: usize) -> bool
    requires { ForIsNext a.ones.now a.twos.now rows w r q }
    ensures { result ≡ is_next r (matrix_at w a.entry.ones.now a.entry.twos.now) c q }
{
    c < r && places::cell(a, rows, w, c, q) != 0
}

// One position of the walk that supplies: position i of row t takes place q of row x, less trit j where it is passed over.
pub fn supply_place(
    ones: &mut [u64],
    twos: &mut [u64],
    rows: usize,
    w: usize,
    r: usize,
    c: usize,
    i: usize,
    q: usize,
    v: Planes,
    j: usize,
    x: usize,
    t: usize,
) -> usize
    requires { ForSupplyPlace ones.old twos.old rows w r c i q v.ones.now v.twos.now j x t }
    ensures value { result ≡ cond (is_next r (matrix_at w ones.old twos.old) c i) (suc c) c }
    ensures grid { Grid ones.new twos.new rows w
        (put_row t (cond (is_next r (matrix_at w ones.old twos.old) c i)
        (put_v (matrix_at w ones.old twos.old t) i (matrix_at w ones.old twos.old x q))
        (put_v (matrix_at w ones.old twos.old t) i
        (sub_t (matrix_at w ones.old twos.old x q) (trit_at v.entry.ones.now v.entry.twos.now j))))
        (matrix_at w ones.old twos.old)) }
{
    if is_next(Planes { ones, twos }, rows, w, r, c, i) {
        places::copy_place(ones, twos, rows, w, x, q, t, i);
        return c + 1;
    }
    places::put_less(ones, twos, rows, w, x, q, v, j, t, i);
    c
}

// The first m positions are walked: each takes its place of row x into row t, and those that are passed over lose the next trit of a row.
pub fn supply(
    ones: &mut [u64],
    twos: &mut [u64],
    rows: usize,
    w: usize,
    r: usize,
    order: &[u16],
    m: usize,
    v: Planes,
    x: usize,
    t: usize,
)
    requires { ForSupply ones.old twos.old rows w r order.now m v.ones.now v.twos.now x t }
    ensures { Grid ones.new twos.new rows w
        (put_row t (firsts_of r (matrix_at w ones.old twos.old) order.now m
        (trit_at v.entry.ones.now v.entry.twos.now)
        (matrix_at w ones.old twos.old x) (matrix_at w ones.old twos.old t))
        (matrix_at w ones.old twos.old)) }
{
    let mut c = 0;
    for (i, &q) in order[..m].iter().enumerate() {
        c = supply_place(ones, twos, rows, w, r, c, i, usize::from(q), v, i - c, x, t);
    }
}

// The column of row c's pivot: the first of the columns c to m - 1 at which the row is not 0; 0 where there is none, as in the definition.
pub fn pivot_place(a: Planes, rows: usize, w: usize, m: usize, c: usize) -> usize
    requires { ForPivotPlace a.ones.now a.twos.now rows w m c }
    ensures value { result ≡ pivot_place (matrix_at w a.entry.ones.now a.entry.twos.now) (range m) c }
    ensures upper_bound { result < 64 * w }
{
    (c..m)
        .find(|&i| places::cell(a, rows, w, c, i) != 0)
        .unwrap_or(0)
}

// Place q of row e loses the product of rows c and e.
pub fn lessen(
    ones: &mut [u64],
    twos: &mut [u64],
    rows: usize,
    w: usize,
    q: usize,
    c: usize,
    e: usize,
)
    requires { ForLessen ones.old twos.old rows w q c e }
    ensures { Grid ones.new twos.new rows w
        (put_row e (put_v (matrix_at w ones.old twos.old e) q
        (sub_t (matrix_at w ones.old twos.old e q)
        (dot_v (matrix_at w ones.old twos.old c) (matrix_at w ones.old twos.old e) (64 * w))))
        (matrix_at w ones.old twos.old)) }
{
    let m = Planes { ones, twos };
    let t = grid::two_rows::row_dot(m, rows, w, c, e);
    let v = places::cell(m, rows, w, e, q);
    grid::places::put_at(ones, twos, rows, w, e, q, places::less_trit(v, t));
}

// From row r - 1 to row 0: row e loses, at the column of that row's pivot, the product of the two rows.
pub fn solve_pivots(
    ones: &mut [u64],
    twos: &mut [u64],
    rows: usize,
    w: usize,
    r: usize,
    m: usize,
    e: usize,
)
    requires { ForSolvePivots ones.old twos.old rows w r m e }
    ensures { Grid ones.new twos.new rows w
        (put_row e (backed (64 * w) (matrix_at w ones.old twos.old)
        (pivot_place (matrix_at w ones.old twos.old) (range m)) r
        (matrix_at w ones.old twos.old e)) (matrix_at w ones.old twos.old)) }
{
    for c in (0..r).rev() {
        let q = pivot_place(Planes { ones, twos }, rows, w, m, c);
        lessen(ones, twos, rows, w, q, c, e);
    }
}
