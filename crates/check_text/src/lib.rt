// The check of a salt and a text under a held key.
// What is written stays two slices: of a slice the length and the ranges of words are known with no clause, of one in a struct they are not.
#![tactic(auto)]

ghost use Rattle.std.specs.Prelude.{◌≡◌, length, IfOk};
ghost use Rattle.trits.specs.Planes.{Row};
ghost use Rattle.trits.specs.Refusal.{code_of};
ghost use Rattle.packed.specs.Packed.{bytes_for, packed_row};
ghost use Rattle.syndrome.specs.Syndrome.{hashed_row, hashed_refusal};
ghost use Rattle.held_key.specs.Held.{row_trits};
ghost use Rattle.held_key.specs.Store.{refusal_of};
ghost use Rattle.held_key.specs.Steps.{Whole};
ghost use Rattle.check_tests.specs.Check.{told, held_counts, answered};
ghost use Rattle.check_text.specs.TextCheck.{text_check_of, text_lengths, text_contents, check_text_answer, check_text_work_ones, check_text_work_twos};
ghost use Rattle.check_text.specs.Steps.{tested_refusal, ForJudgeText};

use check_tests::Verdict;
use held_key::state::{BegunKey, Held};
use trits::Planes;
use trits::refusal::Refusal;

// Whether the salt and packed s have their lengths.
fn test_lengths(begun: BegunKey, salt: &[u8], s: &[u8]) -> Result<(), Refusal>
    ensures { code_of result ≡ text_lengths begun.held (length salt.now) (length s.now) }
{
    if salt.len() != 32 || s.len() != (begun.held.k as usize + 4) / 5 {
        return Err(Refusal::Length);
    }
    Ok(())
}

// The contents: the held rows, s. Rows that pass can be read.
fn test_contents(begun: BegunKey, key: Planes, s: &[u8]) -> Result<(), Refusal>
    requires whole { Whole begun.held key.ones.now key.twos.now }
    requires s_len { length s.now ≡ bytes_for begun.held.k }
    ensures refusal { code_of result ≡ text_contents begun.held key.entry.ones.now key.entry.twos.now s.now }
    ensures readable { IfOk result (λ _. Row key.entry.ones.now key.entry.twos.now) }
{
    check_tests::test_rows(begun, key)?;
    packing::faults::test_bytes(begun.held.k as usize, s)
}

// The first refusal that does not wait for the hash. A key that passes can be read.
fn test_text(
    held: Held,
    number: u64,
    key: Planes,
    salt: &[u8],
    s: &[u8],
    work: Planes,
) -> Result<BegunKey, Refusal>
    ensures refusal { refusal_of result ≡ tested_refusal held number key.entry.ones.now key.entry.twos.now salt.now s.now
        work.entry.ones.now work.entry.twos.now }
    ensures same { IfOk result (λ begun. begun.held ≡ held) }
    ensures readable { IfOk result (λ _. Row key.entry.ones.now key.entry.twos.now) }
{
    let begun = check_tests::test_call(
        held,
        number,
        key.ones.len(),
        key.twos.len(),
        work.ones.len(),
        work.twos.len(),
    )?;
    test_lengths(begun, salt, s)?;
    test_contents(begun, key, s)?;
    Ok(begun)
}

// The verdict past the tests: y is made in the working space, and the full word is weighed; or 6.
fn judge_text(
    begun: BegunKey,
    key: Planes,
    salt: &[u8],
    text: &[u8],
    s: &[u8],
    work_ones: &mut [u64],
    work_twos: &mut [u64],
) -> Result<Verdict, Refusal>
    requires { ForJudgeText begun.held key.ones.now key.twos.now salt.now text.now s.now work_ones.old work_twos.old }
    ensures { told result ≡ answered (hashed_refusal (row_trits begun.held) salt.now text.now)
        (held_counts begun.held key.entry.ones.now key.entry.twos.now (hashed_row (row_trits begun.held) salt.now text.now)
        (packed_row s.now)) begun.held.w }
{
    syndrome::make(begun.row_trits(), salt, text, work_ones, work_twos)?;
    let counts = checker::weighing::weigh_made(begun, key, s, work_ones, work_twos);
    Ok(check_tests::judge(counts, begun.held.w))
}

// The check of a salt, a text and packed s under the held key; y is made in the working space.
pub fn check_text(
    held: Held,
    number: u64,
    key: Planes,
    salt: &[u8],
    text: &[u8],
    s: &[u8],
    work_ones: &mut [u64],
    work_twos: &mut [u64],
) -> Result<Verdict, Refusal>
    ensures { let c = text_check_of held number key.entry.ones.now key.entry.twos.now salt.now text.now s.now
        work_ones.old work_twos.old in
        (told result ≡ check_text_answer c) × (work_ones.new ≡ check_text_work_ones c) × (work_twos.new ≡ check_text_work_twos c) }
{
    let begun = test_text(
        held,
        number,
        key,
        salt,
        s,
        Planes {
            ones: work_ones,
            twos: work_twos,
        },
    )?;
    let answer = judge_text(begun, key, salt, text, s, work_ones, work_twos);
    planes::words::zero_words(work_ones); // after 6 too
    planes::words::zero_words(work_twos);
    answer
}
