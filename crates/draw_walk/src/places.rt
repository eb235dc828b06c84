// One place of a row: it takes another place, or a difference, or what another row forces.
ghost use Rattle.std.specs.Prelude.{◌≡◌, ◌<◌};
ghost use Rattle.trits.specs.Trit.{number, trit_of, put_v, mul_t, sub_t};
ghost use Rattle.trits.specs.Planes.{trit_at};
ghost use Rattle.trits.specs.Rows.{matrix_at};
ghost use Rattle.grid.specs.Steps.{Grid, put_row};
ghost use Rattle.scheme.specs.Draw.{forced_by};
ghost use Rattle.draw_walk.specs.Steps.{ForCell, ForCopyPlace, ForPutLess, ForTakePlace, ForForcedTrit, ForForcePlace};

use trits::Planes;

// The trit at place q of row i.
pub fn cell(a: Planes, rows: usize, w: usize, i: usize, q: usize) -> u8
    requires { ForCell a.ones.now a.twos.now rows w i q }
    ensures { result ≡ number (matrix_at w a.entry.ones.now a.entry.twos.now i q) }
{
    planes::places::trit_at(a, 64 * (i * w) + q)
}

// The trit a - b.
pub fn less_trit(a: u8, b: u8) -> u8
    requires { (a < 3) × (b < 3) }
    ensures { result ≡ number (sub_t (trit_of a) (trit_of b)) }
{
    (a + 2 * b) % 3
}

// Place q of row j takes place p of row i.
pub fn copy_place(
    ones: &mut [u64],
    twos: &mut [u64],
    rows: usize,
    w: usize,
    i: usize,
    p: usize,
    j: usize,
    q: usize,
)
    requires { ForCopyPlace ones.old twos.old rows w i p j q }
    ensures { Grid ones.new twos.new rows w
        (put_row j (put_v (matrix_at w ones.old twos.old j) q (matrix_at w ones.old twos.old i p))
        (matrix_at w ones.old twos.old)) }
{
    let t = cell(Planes { ones, twos }, rows, w, i, p);
    grid::places::put_at(ones, twos, rows, w, j, q, t);
}

// Place q of row j takes place p of row i less trit k of another row.
pub fn put_less(
    ones: &mut [u64],
    twos: &mut [u64],
    rows: usize,
    w: usize,
    i: usize,
    p: usize,
    v: Planes,
    k: usize,
    j: usize,
    q: usize,
)
    requires { ForPutLess ones.old twos.old rows w i p v.ones.now v.twos.now k j q }
    ensures { Grid ones.new twos.new rows w
        (put_row j (put_v (matrix_at w ones.old twos.old j) q
        (sub_t (matrix_at w ones.old twos.old i p) (trit_at v.entry.ones.now v.entry.twos.now k)))
        (matrix_at w ones.old twos.old)) }
{
    let a = cell(Planes { ones, twos }, rows, w, i, p);
    let b = planes::places::trit_at(v, k);
    grid::places::put_at(ones, twos, rows, w, j, q, less_trit(a, b));
}

// Place q of row e becomes that of row x less it.
pub fn take_place(
    ones: &mut [u64],
    twos: &mut [u64],
    rows: usize,
    w: usize,
    x: usize,
    e: usize,
    q: usize,
)
    requires { ForTakePlace ones.old twos.old rows w x e q }
    ensures { Grid ones.new twos.new rows w
        (put_row e (put_v (matrix_at w ones.old twos.old e) q
        (sub_t (matrix_at w ones.old twos.old x q) (matrix_at w ones.old twos.old e q)))
        (matrix_at w ones.old twos.old)) }
{
    let m = Planes { ones, twos };
    let a = cell(m, rows, w, x, q);
    let b = cell(m, rows, w, e, q);
    grid::places::put_at(ones, twos, rows, w, e, q, less_trit(a, b));
}

// The trit (c - b)·v.
pub fn forced_trit(b: u8, c: u8, v: u8) -> u8
    requires { ForForcedTrit b c v }
    ensures { result ≡ number (mul_t (sub_t (trit_of c) (trit_of b)) (trit_of v)) }
{
    (c + 2 * b) * v % 3
}

// Place q of row e is forced by row ev: (c - b)·e_V where that is not 0, else the supplied value j.
pub fn force_place(
    ones: &mut [u64],
    twos: &mut [u64],
    rows: usize,
    w: usize,
    q: usize,
    b: Planes,
    c: Planes,
    u: Planes,
    j: usize,
    ev: usize,
    e: usize,
)
    requires { ForForcePlace ones.old twos.old rows w q b.ones.now b.twos.now c.ones.now c.twos.now u.ones.now u.twos.now j ev e }
    ensures { Grid ones.new twos.new rows w
        (put_row e (put_v (matrix_at w ones.old twos.old e) q
        (forced_by (trit_at b.entry.ones.now b.entry.twos.now) (trit_at c.entry.ones.now c.entry.twos.now)
        (matrix_at w ones.old twos.old ev) q
        (trit_at u.entry.ones.now u.entry.twos.now j))) (matrix_at w ones.old twos.old)) }
{
    let v = cell(Planes { ones, twos }, rows, w, ev, q);
    if v == 0 {
        grid::places::put_from(ones, twos, rows, w, e, q, u, j);
        return;
    }
    let b_q = planes::places::trit_at(b, q);
    let c_q = planes::places::trit_at(c, q);
    grid::places::put_at(ones, twos, rows, w, e, q, forced_trit(b_q, c_q, v));
}
