// The check in planes, and the counts of both checks with their tests made once: exported for the benchmark in C, and for nothing else.
// Planes come as separate slices, since that is the C interface. The two loops differ in the call that they repeat, which holds the working space.
#![tactic(auto)]

ghost use Rattle.std.specs.Prelude.{◌≡◌};
ghost use Rattle.trits.specs.Planes.{trit_at};
ghost use Rattle.packed.specs.Packed.{packed_row};
ghost use Rattle.check_tests.specs.Check.{held_counts, told, answered};
ghost use Rattle.check_tests.specs.Check.{check_of, check_refusal, check_counts, check_answer, check_work_ones, check_work_twos};
ghost use Rattle.check_tests.specs.Check.{packed_check_of, check_packed_refusal, check_packed_counts, check_packed_work_ones, check_packed_work_twos};
ghost use Rattle.bench_check.specs.{after};
ghost use Rattle.checker.specs.Steps.{ForWeigh, ForWeighPacked};

use check_tests::{Checked, Verdict};
use held_key::state::{BegunKey, Held};
use trits::refusal::Refusal;
use trits::{Counts, Planes};

// The check of y and s in planes, in numbers.
#[unsafe(no_mangle)]
pub extern "C" fn bench_check(
    held: Held,
    number: u64,
    ones: &[u64],
    twos: &[u64],
    y_ones: &[u64],
    y_twos: &[u64],
    s_ones: &[u64],
    s_twos: &[u64],
    work_ones: &mut [u64],
    work_twos: &mut [u64],
) -> Checked
    ensures { let c = check_of held number ones.now twos.now y_ones.now y_twos.now
        s_ones.now s_twos.now work_ones.old work_twos.old in
        (result ≡ check_answer c) × (work_ones.new ≡ check_work_ones c) × (work_twos.new ≡ check_work_twos c) }
{
    let key = Planes { ones, twos };
    let y = Planes {
        ones: y_ones,
        twos: y_twos,
    };
    let s = Planes {
        ones: s_ones,
        twos: s_twos,
    };
    Checked::from(checker::check(held, number, key, y, s, work_ones, work_twos))
}

// The ones and twos of y and s in planes are worked out so many times.
fn weigh_times(
    begun: BegunKey,
    key: Planes,
    y: Planes,
    s: Planes,
    work_ones: &mut [u64],
    work_twos: &mut [u64],
    times: usize,
) -> Counts
    requires { ForWeigh begun.held key.ones.now key.twos.now y.ones.now y.twos.now s.ones.now s.twos.now
        work_ones.old work_twos.old }
    ensures { result ≡ after times (held_counts begun.held key.entry.ones.now key.entry.twos.now
        (trit_at y.entry.ones.now y.entry.twos.now) (trit_at s.entry.ones.now s.entry.twos.now)) }
{
    let mut counts = Counts::default();
    for _i in 0..times {
        counts = checker::weighing::weigh(begun, key, y, s, work_ones, work_twos);
    }
    counts
}

// The check of y and s in planes: its tests once, its ones and twos so many times.
fn check_times(
    held: Held,
    number: u64,
    key: Planes,
    y: Planes,
    s: Planes,
    work_ones: &mut [u64],
    work_twos: &mut [u64],
    times: usize,
) -> Result<Verdict, Refusal>
    ensures { let c = check_of held number key.entry.ones.now key.entry.twos.now y.entry.ones.now y.entry.twos.now
        s.entry.ones.now s.entry.twos.now work_ones.old work_twos.old in
        (told result ≡ answered (check_refusal c) (after times (check_counts c)) held.w)
        × (work_ones.new ≡ check_work_ones c) × (work_twos.new ≡ check_work_twos c) }
{
    let begun = check_tests::test_check(
        held,
        number,
        key,
        y,
        s,
        Planes {
            ones: work_ones,
            twos: work_twos,
        },
    )?;
    let counts = weigh_times(begun, key, y, s, work_ones, work_twos, times);
    planes::words::zero_words(work_ones); // both planes are left 0
    planes::words::zero_words(work_twos);
    Ok(check_tests::judge(counts, held.w))
}

// The same in numbers.
#[unsafe(no_mangle)]
pub extern "C" fn bench_weigh(
    held: Held,
    number: u64,
    ones: &[u64],
    twos: &[u64],
    y_ones: &[u64],
    y_twos: &[u64],
    s_ones: &[u64],
    s_twos: &[u64],
    work_ones: &mut [u64],
    work_twos: &mut [u64],
    times: usize,
) -> Checked
    ensures { let c = check_of held number ones.now twos.now y_ones.now y_twos.now
        s_ones.now s_twos.now work_ones.old work_twos.old in
        (result ≡ answered (check_refusal c) (after times (check_counts c)) held.w)
        × (work_ones.new ≡ check_work_ones c) × (work_twos.new ≡ check_work_twos c) }
{
    let key = Planes { ones, twos };
    let y = Planes {
        ones: y_ones,
        twos: y_twos,
    };
    let s = Planes {
        ones: s_ones,
        twos: s_twos,
    };
    Checked::from(check_times(held, number, key, y, s, work_ones, work_twos, times))
}

// The ones and twos of packed y and s are worked out so many times.
fn weigh_packed_times(
    begun: BegunKey,
    key: Planes,
    y: &[u8],
    s: &[u8],
    work_ones: &mut [u64],
    work_twos: &mut [u64],
    times: usize,
) -> Counts
    requires { ForWeighPacked begun.held key.ones.now key.twos.now y.now s.now work_ones.old work_twos.old }
    ensures { result ≡ after times (held_counts begun.held key.entry.ones.now key.entry.twos.now (packed_row y.now)
        (packed_row s.now)) }
{
    let mut counts = Counts::default();
    for _i in 0..times {
        counts = checker::weighing::weigh_packed(begun, key, y, s, work_ones, work_twos);
    }
    counts
}

// The check of packed y and s: its tests once, its ones and twos so many times.
fn check_packed_times(
    held: Held,
    number: u64,
    key: Planes,
    y: &[u8],
    s: &[u8],
    work_ones: &mut [u64],
    work_twos: &mut [u64],
    times: usize,
) -> Result<Verdict, Refusal>
    ensures { let c = packed_check_of held number key.entry.ones.now key.entry.twos.now y.now s.now
        work_ones.old work_twos.old in
        (told result ≡ answered (check_packed_refusal c) (after times (check_packed_counts c)) held.w)
        × (work_ones.new ≡ check_packed_work_ones c) × (work_twos.new ≡ check_packed_work_twos c) }
{
    let begun = check_tests::test_packed_check(
        held,
        number,
        key,
        y,
        s,
        Planes {
            ones: work_ones,
            twos: work_twos,
        },
    )?;
    let counts = weigh_packed_times(begun, key, y, s, work_ones, work_twos, times);
    planes::words::zero_words(work_ones);
    planes::words::zero_words(work_twos);
    Ok(check_tests::judge(counts, held.w))
}

// The same in numbers.
#[unsafe(no_mangle)]
pub extern "C" fn bench_weigh_packed(
    held: Held,
    number: u64,
    ones: &[u64],
    twos: &[u64],
    y: &[u8],
    s: &[u8],
    work_ones: &mut [u64],
    work_twos: &mut [u64],
    times: usize,
) -> Checked
    ensures { let c = packed_check_of held number ones.now twos.now y.now s.now
        work_ones.old work_twos.old in
        (result ≡ answered (check_packed_refusal c) (after times (check_packed_counts c)) held.w)
        × (work_ones.new ≡ check_packed_work_ones c) × (work_twos.new ≡ check_packed_work_twos c) }
{
    let key = Planes { ones, twos };
    Checked::from(check_packed_times(held, number, key, y, s, work_ones, work_twos, times))
}
