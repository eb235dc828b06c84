// The check under a held key.
// Its two forms, in planes and packed, stay two calls: a trait over both would have both contracts for its laws, and be no plainer.
// What is written stays two slices: of a slice the length and the ranges of words are known with no clause, of one in a struct they are not.
#![tactic(auto)]

pub mod weighing; // the ones and twos of the full word

ghost use Rattle.std.specs.Prelude.{◌≡◌};
ghost use Rattle.check_tests.specs.Check.{check_of, check_answer, check_work_ones, check_work_twos, told};
ghost use Rattle.check_tests.specs.Check.{packed_check_of, check_packed_answer, check_packed_work_ones, check_packed_work_twos};

use check_tests::Verdict;
use held_key::state::Held;
use trits::Planes;
use trits::refusal::Refusal;

// The check of y and s in planes under the held key.
pub fn check(
    held: Held,
    number: u64,
    key: Planes,
    y: Planes,
    s: Planes,
    work_ones: &mut [u64],
    work_twos: &mut [u64],
) -> Result<Verdict, Refusal>
    ensures { let c = check_of held number key.entry.ones.now key.entry.twos.now y.entry.ones.now y.entry.twos.now
        s.entry.ones.now s.entry.twos.now work_ones.old work_twos.old in
        (told result ≡ check_answer c) × (work_ones.new ≡ check_work_ones c) × (work_twos.new ≡ check_work_twos c) }
{
    let begun = check_tests::test_check(
        held,
        number,
        key,
        y,
        s,
        Planes {
            ones: work_ones,
            twos: work_twos,
        },
    )?;
    let counts = weighing::weigh(begun, key, y, s, work_ones, work_twos);
    planes::words::zero_words(work_ones);
    planes::words::zero_words(work_twos);
    Ok(check_tests::judge(counts, held.w))
}

// The check of packed y and s under the held key.
pub fn check_packed(
    held: Held,
    number: u64,
    key: Planes,
    y: &[u8],
    s: &[u8],
    work_ones: &mut [u64],
    work_twos: &mut [u64],
) -> Result<Verdict, Refusal>
    ensures { let c = packed_check_of held number key.entry.ones.now key.entry.twos.now y.now s.now
        work_ones.old work_twos.old in
        (told result ≡ check_packed_answer c) × (work_ones.new ≡ check_packed_work_ones c) × (work_twos.new ≡ check_packed_work_twos c) }
{
    let begun = check_tests::test_packed_check(
        held,
        number,
        key,
        y,
        s,
        Planes {
            ones: work_ones,
            twos: work_twos,
        },
    )?;
    let counts = weighing::weigh_packed(begun, key, y, s, work_ones, work_twos);
    planes::words::zero_words(work_ones); // nothing of y and s stays
    planes::words::zero_words(work_twos);
    Ok(check_tests::judge(counts, held.w))
}
