// The columns of a plane's own rows, as working words of the same plane.
// The loop goes over indices: the rows that are read stand in the plane that is written.
ghost use Rattle.std.specs.Prelude.{◌≡◌, ◌+◌, ◌*◌, get_or, take};
ghost use Rattle.gathering.specs.Own.{OwnLoaded, OwnBlock, ForOwnWord, ForOwnBlock};

// Word c of row k, 0 from row r on.
pub fn own_word(plane: &[u64], w: usize, r: usize, k: usize, c: usize) -> u64
    requires { ForOwnWord plane.now w r c }
    ensures { result ≡ get_or (take (r * w) plane.now) (k * w + c) 0 }
{
    if k < r { plane[k * w + c] } else { 0 }
}

// The words c of the 64 rows from row i on go to the words from `at` on.
pub fn load_own(plane: &mut [u64], w: usize, r: usize, i: usize, c: usize, at: usize)
    requires { ForOwnBlock plane.old w r i c at }
    ensures { OwnLoaded w r i c at plane.old plane.new }
{
    for x in 0..64 {
        plane[at + x] = own_word(plane, w, r, i + x, c);
    }
}

// Those words turned: a word for each of the columns.
pub fn own_block(plane: &mut [u64], w: usize, r: usize, i: usize, c: usize, at: usize)
    requires { ForOwnBlock plane.old w r i c at }
    ensures { OwnBlock w r i c at plane.old plane.new }
{
    load_own(plane, w, r, i, c, at);
    let e = at + 64;
    turning::turn::turn(&mut plane[at..e]);
}
