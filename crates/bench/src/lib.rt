// Row functions exported for the benchmark in C, and for nothing else: they are lent and answer what C has, slices one by one and numbers.
#![tactic(auto)]

ghost use Rattle.std.specs.Prelude.{◌≡◌, length};
ghost use Rattle.trits.specs.Planes.{trit_at, Reads};
ghost use Rattle.trits.specs.Refusal.{code_of};
ghost use Rattle.bench.specs.{added_to, sum_refusal, sum_ones, sum_twos, weight_of, both_of, past_of};
ghost use Rattle.rows.specs.Steps.{ForRowPair};

use trits::Planes;
use trits::refusal::Refusal;

// The source is added to the row so many times.
fn add_times(ones: &mut [u64], twos: &mut [u64], source: Planes, times: usize)
    requires { ForRowPair ones.old twos.old source.ones.now source.twos.now }
    ensures { Reads ones.new twos.new (length ones.old)
        (added_to times (trit_at ones.old twos.old) (trit_at source.entry.ones.now source.entry.twos.now)) }
{
    for _ in 0..times {
        rows::add_row(ones, twos, source);
    }
}

// Lengths that differ are refused, and planes with a bit in both.
#[tactic(auto, unfolding(crate::specs::sum_refusal))]
fn test_sum(row: Planes, source: Planes) -> Result<(), Refusal>
    ensures { code_of result ≡ sum_refusal row.entry.ones.now row.entry.twos.now source.entry.ones.now source.entry.twos.now }
{
    let n = row.ones.len();
    if row.twos.len() != n || source.ones.len() != n || source.twos.len() != n {
        return Err(Refusal::Length);
    }
    if planes::faults::both_set(row) || planes::faults::both_set(source) {
        return Err(Refusal::BothPlanes);
    }
    Ok(())
}

// The source is added to the row so many times; the planes are tested once.
#[unsafe(no_mangle)]
pub extern "C" fn bench_sum(
    ones: &mut [u64],
    twos: &mut [u64],
    so: &[u64],
    st: &[u64],
    times: usize,
) -> u64
    ensures value { result ≡ sum_refusal ones.old twos.old so.now st.now }
    ensures ones_after { ones.new ≡ sum_ones times ones.old twos.old so.now st.now }
    ensures twos_after { twos.new ≡ sum_twos times ones.old twos.old so.now st.now }
{
    let source = Planes { ones: so, twos: st };
    if let Err(refusal) = test_sum(Planes { ones, twos }, source) {
        return u64::from(refusal);
    }
    add_times(ones, twos, source, times);
    0
}

// The weight of a row.
#[unsafe(no_mangle)]
#[tactic(auto, unfolding(crate::specs::weight_of))]
pub extern "C" fn bench_weight(ones: &[u64], twos: &[u64]) -> u64
    ensures { result ≡ weight_of ones.now twos.now }
{
    if twos.len() != ones.len() || ones.len() > 65536 {
        return 0;
    }
    rows::weight(Planes { ones, twos })
}

// Whether a bit is set in both planes.
#[unsafe(no_mangle)]
#[tactic(auto, unfolding(crate::specs::both_of))]
pub extern "C" fn bench_both_set(ones: &[u64], twos: &[u64]) -> u64
    ensures { result ≡ both_of ones.now twos.now }
{
    if twos.len() != ones.len() {
        return 2;
    }
    u64::from(planes::faults::both_set(Planes { ones, twos }))
}

// Whether a bit is set past the length in one of the rows, each of m trits.
#[unsafe(no_mangle)]
#[tactic(auto, unfolding(crate::specs::past_of))]
pub extern "C" fn bench_past_end(ones: &[u64], twos: &[u64], rows: usize, m: usize) -> u64
    ensures { result ≡ past_of ones.now twos.now rows m }
{
    if m > 16384 || rows > 16384 {
        return 2;
    }
    let size = rows * m.div_ceil(64);
    if ones.len() != size || twos.len() != size {
        return 2;
    }
    u64::from(planes::faults::rows_past_end(Planes { ones, twos }, rows, m))
}
