// The ranks of H_U and H_V, in the working planes.
ghost use Rattle.std.specs.Prelude.{◌≡◌};
ghost use Rattle.trits.specs.Rows.{matrix_at};
ghost use Rattle.trits.specs.Refusal.{code_of};
ghost use Rattle.matrix.specs.Linear.{rank, range};
ghost use Rattle.scheme.specs.Sizes.{ru, rv};
ghost use Rattle.scheme.specs.Build.{build_refusal};
ghost use Rattle.build_ranks.specs.Steps.{matrices, Fronts, ForCopyFront, ForRankIn, ForFrontRank, ForRankOf, ForTestRanks};

use scheme::sizes::{FittingSizes, Shape};
use trits::Planes;
use trits::refusal::Refusal;

// The first v words of each row of a plane are copied, row after row, to the front of another plane.
pub fn copy_front(plane: &[u64], w: usize, rows: usize, v: usize, work: &mut [u64])
    requires { ForCopyFront plane.now w rows v work.old }
    ensures { Fronts plane.now w v rows work.old work.new }
{
    for i in 0..rows {
        let a = i * w;
        planes::words::put_row(work, i * v, &plane[a..a + v]);
    }
}

// The rank of the first n columns of a matrix: the first v words of its rows, where they stand, are copied to planes with room for tables, and eliminated.
pub fn rank_in(
    m: Planes,
    rows: usize,
    w: usize,
    v: usize,
    n: usize,
    work_ones: &mut [u64],
    work_twos: &mut [u64],
) -> usize
    requires { ForRankIn m.ones.now m.twos.now rows w v n work_ones.old work_twos.old }
    ensures { result ≡ rank rows n (matrix_at w m.entry.ones.now m.entry.twos.now) (range n) }
{
    planes::words::zero_words(work_ones);
    planes::words::zero_words(work_twos);
    copy_front(m.ones, w, rows, v, work_ones);
    copy_front(m.twos, w, rows, v, work_twos);
    lowering::lower::lower(work_ones, work_twos, rows + 243, v, rows, v, n)
}

// That rank, in planes that have room for these words and for tables.
pub fn front_rank(
    m: Planes,
    rows: usize,
    w: usize,
    v: usize,
    n: usize,
    work_ones: &mut [u64],
    work_twos: &mut [u64],
) -> usize
    requires { ForFrontRank m.ones.now m.twos.now rows w v n work_ones.old work_twos.old }
    ensures { result ≡ rank rows n (matrix_at w m.entry.ones.now m.entry.twos.now) (range n) }
{
    let e = (rows + 243) * v;
    rank_in(m, rows, w, v, n, &mut work_ones[..e], &mut work_twos[..e])
}

// The rank of a matrix: its first columns, somewhat more than its rows, are tried first, and all of them where these lack full rank.
pub fn rank_of(
    m: Planes,
    rows: usize,
    w: usize,
    n: usize,
    work_ones: &mut [u64],
    work_twos: &mut [u64],
) -> usize
    requires { ForRankOf m.ones.now m.twos.now rows w n work_ones.old work_twos.old }
    ensures { result ≡ rank rows n (matrix_at w m.entry.ones.now m.entry.twos.now) (range n) }
{
    let v = w.min(rows / 64 + 2);
    let r = front_rank(m, rows, w, v, n.min(64 * v), work_ones, work_twos);
    if r == rows {
        return r; // the first columns are enough in most cases
    }
    front_rank(m, rows, w, w, n, work_ones, work_twos)
}

// 9 where H_U lacks rank, then 10 where H_V does.
pub fn test_ranks(
    z: FittingSizes,
    hu: Planes,
    hv: Planes,
    work_ones: &mut [u64],
    work_twos: &mut [u64],
) -> Result<(), Refusal>
    requires { ForTestRanks z.sizes hu.ones.now hu.twos.now hv.ones.now hv.twos.now work_ones.old work_twos.old }
    ensures { code_of result ≡ build_refusal z.sizes (matrices z.sizes hu.entry.ones.now hu.entry.twos.now hv.entry.ones.now
        hv.entry.twos.now) }
{
    let Shape {
        half,
        words,
        ru,
        rv,
    } = z.shape();
    if rank_of(hu, ru, words, half, work_ones, work_twos) != ru {
        return Err(Refusal::RankU);
    }
    if rank_of(hv, rv, words, half, work_ones, work_twos) != rv {
        return Err(Refusal::RankV);
    }
    Ok(())
}
