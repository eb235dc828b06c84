// The two halves of a draw, each in rows of a grid: row x is what its matrix is multiplied with, row e becomes the word, row t has the first part by position.
ghost use Rattle.std.specs.Prelude.{◌≡◌, ◌+◌, ◌*◌, eqb, length, take};
ghost use Rattle.trits.specs.Planes.{trit_at};
ghost use Rattle.trits.specs.Rows.{matrix_at};
ghost use Rattle.matrix.specs.Linear.{rank};
ghost use Rattle.grid.specs.Steps.{Rows, Grid, put_row};
ghost use Rattle.draw_half.specs.Steps.{word_v, word_u, half_word, marked, completed, SolvedWhere};
ghost use Rattle.draw_half.specs.Steps.{ForMark, ForComplete, ForSolveHalf, ForDrawV, ForDrawU};

use super::first;
use super::lent::{Half, HalfRows};
use draw_walk::{parts, walk};
use trits::Planes;

// Where there are further places than m, row t has 1 at column m.
pub fn mark(ones: &mut [u64], twos: &mut [u64], rows: usize, w: usize, m: usize, n: usize, t: usize)
    requires { ForMark ones.old twos.old rows w n t }
    ensures { Grid ones.new twos.new rows w
        (put_row t (marked m n (matrix_at w ones.old twos.old t)) (matrix_at w ones.old twos.old)) }
{
    if m < n {
        grid::places::put_at(ones, twos, rows, w, t, m, 1);
    }
}

// Row e, which holds the last part of x less the word, becomes the word: the first part is made by position in row t and placed back, and all is taken from x.
pub fn complete(
    ones: &mut [u64],
    twos: &mut [u64],
    rows: usize,
    w: usize,
    half: Half,
    v: Planes,
    at: HalfRows,
)
    requires { ForComplete ones.old twos.old rows w half.r half.order.now (half.r + half.gap) v.ones.now v.twos.now at.x at.t at.e }
    ensures { let d = half.entry in
        Grid ones.new twos.new rows w
        (completed (64 * w) d.r d.order.now (d.r + d.gap)
        (trit_at v.entry.ones.now v.entry.twos.now) at.x at.t at.e
        (matrix_at w ones.old twos.old)) }
{
    let Half { r, order, gap, .. } = half;
    let HalfRows { x, t, e } = at;
    let m = r + gap;
    walk::supply(ones, twos, rows, w, r, order, m, v, x, t);
    mark(ones, twos, rows, w, m, order.len(), t);
    walk::solve_pivots(ones, twos, rows, w, r, m, t);
    parts::place_back(ones, twos, rows, w, order, m, t, e);
    grid::two_rows::take_from(ones, twos, rows, w, e, x);
}

// One half, whose last part is supplied in row e: the word in row e; false where the first part lacks rank.
pub fn solve_half(
    ones: &mut [u64],
    twos: &mut [u64],
    rows: usize,
    w: usize,
    half: Half,
    v: Planes,
    at: HalfRows,
) -> bool
    requires { ForSolveHalf ones.old twos.old rows w half.r half.h.ones.now half.h.twos.now half.order.now (half.r + half.gap)
        v.ones.now v.twos.now at.x at.t at.e }
    ensures value { let d = half.entry in let H = matrix_at w d.h.ones.now d.h.twos.now in
        result ≡ eqb (rank d.r (length d.order.now) H (take (d.r + d.gap) d.order.now)) d.r }
    ensures rows { Rows ones.new twos.new rows w }
    ensures solved_where { let d = half.entry in let H = matrix_at w d.h.ones.now d.h.twos.now in
        SolvedWhere result d.r at.t at.e (matrix_at w ones.old twos.old) (matrix_at w ones.new twos.new)
        (half_word d.r (length d.order.now) H d.order.now (d.r + d.gap) (trit_at v.entry.ones.now v.entry.twos.now)
        (matrix_at w ones.old twos.old at.e) (matrix_at w ones.old twos.old at.x)) }
{
    let m = half.r + half.gap;
    parts::take_last(ones, twos, rows, w, half.order, m, at.x, at.e);
    if first::lower_first(ones, twos, rows, w, half, m, at.e) != half.r {
        return false;
    }
    complete(ones, twos, rows, w, half, v, at);
    true
}

// V: the whole order's places that are no pivot take the trits, and the pivots what the syndrome asks; false where the first part lacks rank.
pub fn draw_v(
    ones: &mut [u64],
    twos: &mut [u64],
    rows: usize,
    w: usize,
    half: Half,
    v: Planes,
    at: HalfRows,
) -> bool
    requires { ForDrawV ones.old twos.old rows w half.r half.h.ones.now half.h.twos.now half.order.now half.gap
        v.ones.now v.twos.now at.x at.t at.e }
    ensures value { let d = half.entry in let H = matrix_at w d.h.ones.now d.h.twos.now in
        result ≡ eqb (rank d.r (length d.order.now) H (take (d.r + d.gap) d.order.now)) d.r }
    ensures rows { Rows ones.new twos.new rows w }
    ensures solved_where { let d = half.entry in let H = matrix_at w d.h.ones.now d.h.twos.now in
        SolvedWhere result d.r at.t at.e (matrix_at w ones.old twos.old) (matrix_at w ones.new twos.new)
        (word_v d.r (length d.order.now) H d.order.now d.gap (trit_at v.entry.ones.now v.entry.twos.now)
        (matrix_at w ones.old twos.old at.x)) }
{
    let m = half.r + half.gap;
    grid::one_row::zero_row(ones, twos, rows, w, at.t);
    parts::supply_last(ones, twos, rows, w, half.order, m, v, half.gap, at.e);
    solve_half(ones, twos, rows, w, half, v, at)
}

// U: the first part's places that are no pivot take the first values, the last part is forced by row ev or takes the others, and the pivots likewise.
pub fn draw_u(
    ones: &mut [u64],
    twos: &mut [u64],
    rows: usize,
    w: usize,
    half: Half,
    b: Planes,
    c: Planes,
    u: Planes,
    ev: usize,
    at: HalfRows,
) -> bool
    requires { ForDrawU ones.old twos.old rows w half.r half.h.ones.now half.h.twos.now half.order.now half.gap
        b.ones.now b.twos.now c.ones.now c.twos.now u.ones.now u.twos.now ev at.x at.t at.e }
    ensures value { let d = half.entry in let H = matrix_at w d.h.ones.now d.h.twos.now in
        result ≡ eqb (rank d.r (length d.order.now) H (take (d.r + d.gap) d.order.now)) d.r }
    ensures rows { Rows ones.new twos.new rows w }
    ensures solved_where { let d = half.entry in let H = matrix_at w d.h.ones.now d.h.twos.now in
        SolvedWhere result d.r at.t at.e (matrix_at w ones.old twos.old) (matrix_at w ones.new twos.new)
        (word_u d.r (length d.order.now) H
        (trit_at b.entry.ones.now b.entry.twos.now) (trit_at c.entry.ones.now c.entry.twos.now)
        d.order.now d.gap (trit_at u.entry.ones.now u.entry.twos.now) (matrix_at w ones.old twos.old ev)
        (matrix_at w ones.old twos.old at.x)) }
{
    let m = half.r + half.gap;
    grid::one_row::zero_row(ones, twos, rows, w, at.t);
    parts::supply_forced(
        ones, twos, rows, w, half.order, m, b, c, u, half.gap, ev, at.e,
    );
    solve_half(ones, twos, rows, w, half, u, at)
}
