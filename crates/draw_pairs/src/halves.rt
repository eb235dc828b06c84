// The halves of a word in secret places, one in a row of its own each: parted into x_U and x_V, and joined back.
ghost use Rattle.std.specs.Prelude.{◌+◌};
ghost use Rattle.trits.specs.Planes.{trit_at};
ghost use Rattle.trits.specs.Rows.{matrix_at};
ghost use Rattle.grid.specs.Steps.{Grid};
ghost use Rattle.draw_pairs.specs.Steps.{parted_rows, joined_rows, ForPartHalves, ForJoinHalves};

use trits::Planes;

// Rows l and l + 1 become x_U and x_V: R - c·L, then L - b·x_V. Row l + 2 is used for the products.
pub fn part_halves(
    ones: &mut [u64],
    twos: &mut [u64],
    rows: usize,
    w: usize,
    l: usize,
    b: Planes,
    c: Planes,
)
    requires { ForPartHalves ones.old twos.old rows w l b.ones.now b.twos.now c.ones.now c.twos.now }
    ensures { Grid ones.new twos.new rows w
        (parted_rows l (trit_at b.entry.ones.now b.entry.twos.now) (trit_at c.entry.ones.now c.entry.twos.now)
        (matrix_at w ones.old twos.old)) }
{
    let r = l + 1;
    let t = l + 2;
    grid::products::sub_product(ones, twos, rows, w, r, l, t, c);
    grid::products::sub_product(ones, twos, rows, w, l, r, t, b);
}

// Rows u and v, which hold e_U and e_V, become the left and the right half: e_U + b·e_V, then e_V + c times that. Row t is used for the products.
pub fn join_halves(
    ones: &mut [u64],
    twos: &mut [u64],
    rows: usize,
    w: usize,
    u: usize,
    v: usize,
    t: usize,
    b: Planes,
    c: Planes,
)
    requires { ForJoinHalves ones.old twos.old rows w u v t b.ones.now b.twos.now c.ones.now c.twos.now }
    ensures { Grid ones.new twos.new rows w
        (joined_rows u v t (trit_at b.entry.ones.now b.entry.twos.now) (trit_at c.entry.ones.now c.entry.twos.now)
        (matrix_at w ones.old twos.old)) }
{
    grid::products::add_product(ones, twos, rows, w, u, v, t, b);
    grid::products::add_product(ones, twos, rows, w, v, u, t, c);
}
