// The columns of a matrix come into another order, plane by plane and 64 rows at a time: the rows are turned, so that a column is a word.
ghost use Rattle.std.specs.Prelude.{◌≡◌, length, get_or};
ghost use Rattle.trits.specs.Rows.{matrix_at};
ghost use Rattle.matrix.specs.Blocks.{Front, columns_by};
ghost use Rattle.grid.specs.Steps.{Rows};
ghost use Rattle.gathering.specs.Steps.{picked, Picked, TurnedPick};
ghost use Rattle.build_matrix.specs.Steps.{col_of};
ghost use Rattle.build_columns.specs.Steps.{columns_in, OwnColumns, OwnWord, OwnRows};
ghost use Rattle.build_columns.specs.Steps.{ForTurnOwn, ForPickOwn, ForPickOwnBlock, ForOwnPlane, ForOwnRows, ForGatherOwnWord, ForGatherOwn};

use super::places::Places;

// The columns of the 64 rows from row i on go to the words after r rows.
pub fn turn_own(plane: &mut [u64], w: usize, r: usize, i: usize)
    requires { ForTurnOwn plane.old w r i }
    ensures { OwnColumns w r i w plane.old plane.new }
{
    for c in 0..w {
        gathering::own::own_block(plane, w, r, i, c, r * w + 64 * c);
    }
}

// The word of the column at position p of the order, 0 past it.
pub fn pick_own(work: &[u64], places: Places, p: usize) -> u64
    requires { ForPickOwn work.now places.order.now places.half places.hw }
    ensures { result ≡ picked (λ q. get_or work.now q 0) (columns_in places.entry) (length places.entry.order.now) p }
{
    if p < places.order.len() {
        work[places.column(usize::from(places.order[p]))]
    } else {
        0
    }
}

// The words of the columns at the 64 positions from 64 * c on, after the columns.
pub fn pick_own_block(work: &mut [u64], places: Places, w: usize, c: usize)
    requires { ForPickOwnBlock work.old places.order.now places.half places.hw w c }
    ensures { Picked (columns_in places.entry) (length places.entry.order.now) w c work.old work.new }
{
    for x in 0..64 {
        work[64 * w + x] = pick_own(work, places, 64 * c + x);
    }
}

// Those words turned back: word c of each of the 64 rows.
pub fn turn_own_pick(work: &mut [u64], places: Places, w: usize, c: usize)
    requires { ForPickOwnBlock work.old places.order.now places.half places.hw w c }
    ensures { TurnedPick (columns_in places.entry) (length places.entry.order.now) w c work.old work.new }
{
    pick_own_block(work, places, w, c);
    let a = 64 * w;
    let e = a + 64;
    turning::turn::turn(&mut work[a..e]);
}

// The words c of the rows i to e - 1 are gathered from the columns in the working words.
pub fn gather_own_word(
    plane: &mut [u64],
    w: usize,
    r: usize,
    i: usize,
    e: usize,
    places: Places,
    c: usize,
)
    requires { ForGatherOwnWord plane.old w r i e places.half places.hw places.order.now c }
    ensures { OwnWord w r i e (columns_in places.entry) (length places.entry.order.now) c plane.old plane.new }
{
    let a = r * w;
    let z = a + 243 * w;
    turn_own_pick(&mut plane[a..z], places, w, c);
    gathering::gather::store_block(plane, a + 64 * w, w, i, e, c);
}

// The rows i to e - 1, at most 64, are gathered.
pub fn gather_own_rows(plane: &mut [u64], w: usize, r: usize, i: usize, e: usize, places: Places)
    requires { ForOwnRows plane.old w r i e places.half places.hw places.order.now }
    ensures { OwnRows w r i e (columns_in places.entry) (length places.entry.order.now) plane.old plane.new }
{
    turn_own(plane, w, r, i);
    for c in 0..w {
        gather_own_word(plane, w, r, i, e, places, c);
    }
}

// The first r rows of one plane.
pub fn gather_own_plane(plane: &mut [u64], w: usize, r: usize, places: Places)
    requires { ForOwnPlane plane.old w r places.half places.hw places.order.now }
    ensures { OwnRows w r 0 r (columns_in places.entry) (length places.entry.order.now) plane.old plane.new }
{
    for i in (0..r).step_by(64) {
        let e = i + (r - i).min(64);
        gather_own_rows(plane, w, r, i, e, places);
    }
}

// The columns of the first r rows come into the order: column j becomes that of place order[j]; 0 past the order.
pub fn gather_own(
    ones: &mut [u64],
    twos: &mut [u64],
    rows: usize,
    w: usize,
    r: usize,
    places: Places,
)
    requires { ForGatherOwn ones.old twos.old rows w r places.half places.hw places.order.now }
    ensures rows { Rows ones.new twos.new rows w }
    ensures front { Front r (columns_by (λ j. col_of places.entry.half places.entry.hw (get_or places.entry.order.now j 0)) (length places.entry.order.now)
        (matrix_at w ones.old twos.old)) (matrix_at w ones.old twos.old)
        (matrix_at w ones.new twos.new) }
{
    gather_own_plane(ones, w, r, places);
    gather_own_plane(twos, w, r, places);
    let a = r * w;
    let z = a + 243 * w;
    planes::words::zero_words(&mut ones[a..z]); // so that no place there is both 1 and 2
}
