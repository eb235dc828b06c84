// Secret places in two rows of a grid: those below N in one, those from N on in the other.
// What is written stays two slices: of a slice the length and the ranges of words are known with no clause, of one in a struct they are not.
ghost use Rattle.std.specs.Prelude.{◌≡◌, ◌+◌, ◌*◌, ◌<◌, length};
ghost use Rattle.trits.specs.Trit.{number, trit_of, up_to};
ghost use Rattle.trits.specs.Planes.{trit_at, Reads, ones_of, twos_of};
ghost use Rattle.trits.specs.Rows.{matrix_at};
ghost use Rattle.matrix.specs.Linear.{zeros};
ghost use Rattle.grid.specs.Steps.{Grid};
ghost use Rattle.scheme.specs.Secret.{join};
ghost use Rattle.scheme.specs.Draw.{placed};
ghost use Rattle.draw_pairs.specs.Steps.{put_place, placed_rows, written_from, ForPutPlace, ForPlaceSyndrome, ForTritOfPlace, ForPutPlaces, ForWritePlaces};

use trits::Planes;

// The trit t is put at secret place q: in row u below half, in row v from half on.
pub fn put_place(
    ones: &mut [u64],
    twos: &mut [u64],
    rows: usize,
    w: usize,
    u: usize,
    v: usize,
    half: usize,
    q: usize,
    t: u8,
)
    requires { ForPutPlace ones.old twos.old rows w u v half q t }
    ensures { Grid ones.new twos.new rows w (put_place u v half q (trit_of t) (matrix_at w ones.old twos.old)) }
{
    if q < half {
        grid::places::put_at(ones, twos, rows, w, u, q, t);
    } else {
        grid::places::put_at(ones, twos, rows, w, v, q - half, t);
    }
}

// The first `count` trits of y are put at the secret places of the order p, in rows l and l + 1 that hold 0.
pub fn place_syndrome(
    ones: &mut [u64],
    twos: &mut [u64],
    rows: usize,
    w: usize,
    l: usize,
    half: usize,
    p: &[u16],
    count: usize,
    y: Planes,
)
    requires { ForPlaceSyndrome ones.old twos.old rows w l half p.now count y.ones.now y.twos.now }
    ensures { Grid ones.new twos.new rows w
        (placed_rows l half (placed p.now (join count (trit_at y.entry.ones.now y.entry.twos.now) zeros))
        (matrix_at w ones.old twos.old)) }
{
    let r = l + 1;
    for (i, &q) in p[..count].iter().enumerate() {
        let t = planes::places::trit_at(y, i);
        put_place(ones, twos, rows, w, l, r, half, usize::from(q), t);
    }
}

// The trit of secret place q: of row u below half, of row v from half on.
pub fn trit_of_place(
    m: Planes,
    rows: usize,
    w: usize,
    u: usize,
    v: usize,
    half: usize,
    q: usize,
) -> u8
    requires { ForTritOfPlace m.ones.now m.twos.now rows w u v half q }
    ensures { result ≡ number (join half (matrix_at w m.entry.ones.now m.entry.twos.now u) (matrix_at w m.entry.ones.now m.entry.twos.now v) q) }
{
    if q < half {
        planes::places::trit_at(m, 64 * (u * w) + q)
    } else {
        planes::places::trit_at(m, 64 * (v * w) + (q - half))
    }
}

// Place j of a row that holds 0 gets the trit of secret place p(from + j), for each of `count` places.
pub fn put_places(
    m: Planes,
    rows: usize,
    w: usize,
    u: usize,
    v: usize,
    half: usize,
    p: &[u16],
    from: usize,
    count: usize,
    oo: &mut [u64],
    ot: &mut [u64],
)
    requires { ForPutPlaces m.ones.now m.twos.now rows w u v half p.now from count oo.old ot.old }
    ensures { Reads oo.new ot.new (length oo.old)
        (up_to count (written_from half (matrix_at w m.entry.ones.now m.entry.twos.now u) (matrix_at w m.entry.ones.now m.entry.twos.now v)
        p.now from)) }
{
    for (j, &q) in p[from..from + count].iter().enumerate() {
        let t = trit_of_place(m, rows, w, u, v, half, usize::from(q));
        planes::places::put_trit(oo, ot, j, t);
    }
}

// The row writer: place j gets the trit of secret place p(from + j), for each of `count` places, and every other place 0.
pub fn write_places(
    m: Planes,
    rows: usize,
    w: usize,
    u: usize,
    v: usize,
    half: usize,
    p: &[u16],
    from: usize,
    count: usize,
    oo: &mut [u64],
    ot: &mut [u64],
)
    requires { ForWritePlaces m.ones.now m.twos.now rows w u v half p.now from count oo.old ot.old }
    ensures oo_after { oo.new ≡ ones_of (up_to count (written_from half (matrix_at w m.entry.ones.now m.entry.twos.now u)
        (matrix_at w m.entry.ones.now m.entry.twos.now v) p.now from)) (length oo.old) }
    ensures ot_after { ot.new ≡ twos_of (up_to count (written_from half (matrix_at w m.entry.ones.now m.entry.twos.now u)
        (matrix_at w m.entry.ones.now m.entry.twos.now v) p.now from)) (length oo.old) }
{
    planes::words::zero_words(oo);
    planes::words::zero_words(ot);
    put_places(m, rows, w, u, v, half, p, from, count, oo, ot);
}
