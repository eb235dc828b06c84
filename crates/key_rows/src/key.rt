// The key: row i is column r + i of the first r rows, read downwards. The columns of one word are turned together.
ghost use Rattle.std.specs.Prelude.{◌≡◌, ℕ, ◌<◌, ◌+◌, ◌-◌, ◌*◌, length, get_or};
ghost use Rattle.trits.specs.Rows.{matrix_at};
ghost use Rattle.key_rows.specs.Steps.{read_down, key_ones, key_twos, each_block, TurnedGroup, GroupEnd, Written};
ghost use Rattle.key_rows.specs.Steps.{ForTurnGroup, ForGroupEnd, ForWriteGroup, ForWriteKey};

// The columns of the words c of the first 64 * kw rows go to the words after r rows, a block for each 64 rows.
pub fn turn_group(plane: &mut [u64], w: usize, r: usize, c: usize, kw: usize)
    requires { ForTurnGroup plane.old w r c kw }
    ensures { TurnedGroup w r c kw plane.old plane.new }
{
    for g in 0..kw {
        let i = 64 * g;
        gathering::own::own_block(plane, w, r, i, c, r * w + i);
    }
}

// The row writer: it is lent a part of one plane that begins at the row's first word, and writes there the words `at` of each block.
pub fn write_row(plane: &[u64], at: usize, row: &mut [u64])
    requires { (g : ℕ) → g < length row.old → at + 64 * g < length plane.now }
    ensures { row.new ≡ each_block at plane.now (length row.old) }
{
    for g in 0..row.len() {
        row[g] = plane[at + 64 * g];
    }
}

// The rows i to e - 1 of one plane of the key, from the words `at` on of each block.
pub fn write_group(plane: &[u64], at: usize, i: usize, e: usize, kw: usize, key: &mut [u64])
    requires { ForWriteGroup plane.now at i e kw key.old }
    ensures { Written kw i e (λ j g. get_or plane.now (at + (j - i) + 64 * g) 0) key.old key.new }
{
    for j in i..e {
        let a = j * kw;
        let z = a + kw;
        write_row(plane, at + (j - i), &mut key[a..z]);
    }
}

// The end of the rows from row i on whose columns stand in one word, from its column x on.
pub fn group_end(i: usize, x: usize, k: usize) -> usize
    requires { ForGroupEnd i x k }
    ensures { GroupEnd i x k result }
{
    i + (k - i).min(64 - x)
}

// The k rows of the key, kw words each.
pub fn write_key(
    ones: &mut [u64],
    twos: &mut [u64],
    rows: usize,
    w: usize,
    r: usize,
    k: usize,
    kw: usize,
    ko: &mut [u64],
    kt: &mut [u64],
)
    requires { ForWriteKey ones.old twos.old rows w r k kw ko.old kt.old }
    ensures ko_after { ko.new ≡ key_ones k kw (read_down r (matrix_at w ones.old twos.old)) }
    ensures kt_after { kt.new ≡ key_twos k kw (read_down r (matrix_at w ones.old twos.old)) }
{
    let mut i = 0; // the row that comes next
    while i < k {
        // steps of varying length: no range counts them
        let c = (r + i) / 64;
        let x = (r + i) % 64;
        turn_group(ones, w, r, c, kw);
        turn_group(twos, w, r, c, kw);
        let e = group_end(i, x, k);
        write_group(ones, r * w + x, i, e, kw, ko);
        write_group(twos, r * w + x, i, e, kw, kt);
        i = e;
    }
}
