// The columns of a lent matrix are gathered in another order, plane by plane and 64 rows at a time: the rows are turned, so that a column is a word.
// Loops go over indices: the working words that are read stand in the plane that is written.
ghost use Rattle.std.specs.Prelude.{◌≡◌, ◌+◌, ◌<◌, min, get_or};
ghost use Rattle.trits.specs.Rows.{matrix_at};
ghost use Rattle.matrix.specs.Blocks.{Front, columns_by};
ghost use Rattle.grid.specs.Steps.{Rows};
ghost use Rattle.gathering.specs.Steps.{picked, Loaded, TurnedBlock, Columns, Picked, TurnedPick, Stored, GatheredWord, GatheredRows};
ghost use Rattle.gathering.specs.Steps.{ForLoadBlock, ForColumns, ForPick, ForPickBlock, ForStore, ForWord, ForRows, ForPlane, ForGather};

use trits::Planes;

// Word p of a plane, 0 past its end.
pub fn word_at(h: &[u64], p: usize) -> u64
    ensures { result ≡ get_or h.now p 0 }
{
    h.get(p).copied().unwrap_or(0)
}

// The words c of the 64 rows from row i on of a lent plane, 0 past its rows.
pub fn load_block(block: &mut [u64], h: &[u64], i: usize, w: usize, c: usize)
    requires { ForLoadBlock block.old i w c }
    ensures { Loaded h.now i w c block.new }
{
    for x in 0..64 {
        block[x] = word_at(h, (i + x) * w + c);
    }
}

// Those words turned: a word for each of the columns.
pub fn turn_block(block: &mut [u64], h: &[u64], i: usize, w: usize, c: usize)
    requires { ForLoadBlock block.old i w c }
    ensures { TurnedBlock h.now i w c block.new }
{
    load_block(block, h, i, w, c);
    turning::turn::turn(block);
}

// The working words become the columns of the 64 rows from row i on.
pub fn turn_columns(work: &mut [u64], h: &[u64], i: usize, w: usize)
    requires { ForColumns work.old i w }
    ensures { Columns h.now i w w work.old work.new }
{
    for c in 0..w {
        let a = 64 * c;
        let e = a + 64;
        turn_block(&mut work[a..e], h, i, w, c);
    }
}

// The word of the column at position p of the order, 0 from position m on.
pub fn pick(work: &[u64], order: &[u16], m: usize, p: usize) -> u64
    requires { ForPick work.now order.now m }
    ensures { result ≡ picked (λ q. get_or work.now q 0) order.now m p }
{
    if p < m {
        work[usize::from(order[p])]
    } else {
        0
    }
}

// The words of the columns at the 64 positions from 64 * c on, after the columns.
pub fn pick_block(work: &mut [u64], order: &[u16], m: usize, w: usize, c: usize)
    requires { ForPickBlock work.old order.now m w c }
    ensures { Picked order.now m w c work.old work.new }
{
    for x in 0..64 {
        work[64 * w + x] = pick(work, order, m, 64 * c + x);
    }
}

// Those words turned back: word c of each of the 64 rows.
pub fn turn_pick(work: &mut [u64], order: &[u16], m: usize, w: usize, c: usize)
    requires { ForPickBlock work.old order.now m w c }
    ensures { TurnedPick order.now m w c work.old work.new }
{
    pick_block(work, order, m, w, c);
    let a = 64 * w;
    let e = a + 64;
    turning::turn::turn(&mut work[a..e]);
}

// The words from `at` on become the words c of the rows i to e - 1.
pub fn store_block(plane: &mut [u64], at: usize, w: usize, i: usize, e: usize, c: usize)
    requires { ForStore plane.old at w i e c }
    ensures { Stored at w i e c plane.old plane.new }
{
    for k in i..e {
        plane[k * w + c] = plane[at + (k - i)];
    }
}

// The words c of the rows i to e - 1 are gathered from the columns in the working words.
pub fn gather_word(
    plane: &mut [u64],
    w: usize,
    r: usize,
    i: usize,
    e: usize,
    order: &[u16],
    m: usize,
    c: usize,
)
    requires { ForWord plane.old w r i e order.now m c }
    ensures { GatheredWord w r i e order.now m c plane.old plane.new }
{
    let a = r * w;
    let z = a + 243 * w;
    turn_pick(&mut plane[a..z], order, m, w, c);
    store_block(plane, a + 64 * w, w, i, e, c);
}

// The rows i to e - 1, at most 64, are gathered.
pub fn gather_rows(
    plane: &mut [u64],
    w: usize,
    r: usize,
    i: usize,
    e: usize,
    h: &[u64],
    order: &[u16],
    m: usize,
)
    requires { ForRows plane.old w r i e order.now m }
    ensures { GatheredRows w r i e h.now order.now m plane.old plane.new }
{
    let a = r * w;
    let z = a + 243 * w;
    turn_columns(&mut plane[a..z], h, i, w);
    for c in 0..w {
        gather_word(plane, w, r, i, e, order, m, c);
    }
}

// The end of the rows from row i on that are gathered together.
pub fn end_of(i: usize, r: usize) -> usize
    requires { i < r }
    ensures { result ≡ min (i + 64) r }
{
    i + (r - i).min(64)
}

// The first r rows of one plane.
pub fn gather_plane(plane: &mut [u64], w: usize, r: usize, h: &[u64], order: &[u16], m: usize)
    requires { ForPlane plane.old w r order.now m }
    ensures { GatheredRows w r 0 r h.now order.now m plane.old plane.new }
{
    for i in (0..r).step_by(64) {
        gather_rows(plane, w, r, i, end_of(i, r), h, order, m);
    }
}

// The first r rows become those of a lent matrix with its columns in the order's first m places; 0 past them.
pub fn gather(
    ones: &mut [u64],
    twos: &mut [u64],
    rows: usize,
    w: usize,
    r: usize,
    h: Planes,
    order: &[u16],
    m: usize,
)
    requires { ForGather ones.old twos.old rows w r h.ones.now h.twos.now order.now m }
    ensures rows { Rows ones.new twos.new rows w }
    ensures front { Front r (columns_by (λ j. get_or order.now j 0) m (matrix_at w h.entry.ones.now h.entry.twos.now))
        (matrix_at w ones.old twos.old) (matrix_at w ones.new twos.new) }
{
    gather_plane(ones, w, r, h.ones, order, m);
    gather_plane(twos, w, r, h.twos, order, m);
    let a = r * w;
    let z = a + 243 * w;
    planes::words::zero_words(&mut ones[a..z]); // so that no place there is both 1 and 2
}
