// A check's tests in the paper's order, and its answer.
// Planes and packed forms stay apart: a trait over both would have both contracts for its laws, and be no plainer.
#![tactic(auto)]

ghost use Rattle.std.specs.Prelude.{◌≡◌, ◌≤◌, length, Ok, IfOk};
ghost use Rattle.trits.specs.Trit.{sum_of};
ghost use Rattle.trits.specs.Planes.{Row};
ghost use Rattle.trits.specs.Refusal.{code_of, planes_refusal};
ghost use Rattle.held_key.specs.Held.{row_trits};
ghost use Rattle.held_key.specs.Store.{refusal_of};
ghost use Rattle.held_key.specs.Steps.{Whole};
ghost use Rattle.check_tests.specs.Check.{call_refusal, planes_lengths, planes_contents, packed_lengths, packed_contents};
ghost use Rattle.check_tests.specs.Check.{check_of, check_refusal, packed_check_of, check_packed_refusal, told, answered};

use held_key::state::{BegunKey, Held};
use trits::refusal::Refusal;
use trits::{Counts, Planes};

// What a check answers where nothing is refused: the ones and twos of the full word.
#[derive(Clone, Copy)]
pub enum Verdict {
    Yes(Counts),
    No(Counts),
}

// The answer in numbers, as C is told it.
#[repr(C)]
#[derive(Clone, Copy, Default)]
pub struct Checked {
    pub refusal: u64, // its number, or 0
    pub yes: u64, // 1 for yes, 0 for all else
    pub ones: u64, // 0 where refused
    pub twos: u64, // 0 where refused
}

impl From<Result<Verdict, Refusal>> for Checked {
    // The numbers of an answer.
    fn from(answer: Result<Verdict, Refusal>) -> Checked
        ensures { result ≡ told answer }
    {
        match answer {
            Ok(Verdict::Yes(Counts { ones, twos })) => Checked {
                refusal: 0,
                yes: 1,
                ones,
                twos,
            },
            Ok(Verdict::No(Counts { ones, twos })) => Checked {
                refusal: 0,
                yes: 0,
                ones,
                twos,
            },
            Err(refusal) => Checked {
                refusal: u64::from(refusal),
                ..Checked::default()
            },
        }
    }
}

// The verdict on a word's ones and twos.
pub fn judge(counts: Counts, w: u64) -> Verdict
    requires { sum_of counts ≤ 16384 }
    ensures { told (Ok result) ≡ answered 0 counts w }
{
    if counts.ones + counts.twos == w {
        Verdict::Yes(counts)
    } else {
        Verdict::No(counts) // another weight
    }
}

// The first refusal that the state, the key number or the length of a plane makes.
pub fn test_call(
    held: Held,
    number: u64,
    ones: usize,
    twos: usize,
    work_ones: usize,
    work_twos: usize,
) -> Result<BegunKey, Refusal>
    ensures refusal { refusal_of result ≡ call_refusal held number ones twos work_ones work_twos }
    ensures same { IfOk result (λ begun. begun.held ≡ held) }
{
    if held.begun == 0 {
        return Err(Refusal::NoKey);
    }
    let Some(begun) = held.begun_key() else {
        return Err(Refusal::Size);
    };
    if held.rows != held.k {
        return Err(Refusal::NoKey);
    }
    if number != held.number {
        return Err(Refusal::OtherKey);
    }
    let words = begun.key_words();
    if ones != words || twos != words {
        return Err(Refusal::Length);
    }
    let row = begun.row_words();
    if work_ones != row || work_twos != row {
        return Err(Refusal::Length);
    }
    Ok(begun)
}

// The contents of the held rows. Rows that pass can be read.
pub fn test_rows(begun: BegunKey, key: Planes) -> Result<(), Refusal>
    requires { Whole begun.held key.ones.now key.twos.now }
    ensures refusal { code_of result ≡ planes_refusal key.entry.ones.now key.entry.twos.now begun.held.k (row_trits begun.held) }
    ensures readable { IfOk result (λ _. Row key.entry.ones.now key.entry.twos.now) }
{
    planes::faults::test_planes(key, begun.held.k as usize, begun.row_trits())
}

// The contents of a check in planes: the held rows, y, s.
fn test_contents(begun: BegunKey, key: Planes, y: Planes, s: Planes) -> Result<(), Refusal>
    requires whole { Whole begun.held key.ones.now key.twos.now }
    requires fitted { planes_lengths begun.held (length y.ones.now) (length y.twos.now) (length s.ones.now) (length s.twos.now) ≡ 0 }
    ensures refusal { code_of result ≡ planes_contents begun.held key.entry.ones.now key.entry.twos.now y.entry.ones.now y.entry.twos.now
        s.entry.ones.now s.entry.twos.now }
    ensures readable { IfOk result (λ _. Row key.entry.ones.now key.entry.twos.now × Row y.entry.ones.now y.entry.twos.now
        × Row s.entry.ones.now s.entry.twos.now) }
{
    test_rows(begun, key)?;
    planes::faults::test_planes(y, 1, begun.row_trits())?;
    planes::faults::test_planes(s, 1, begun.held.k as usize)
}

// The contents of a packed check: the held rows, y, s.
fn test_packed_contents(begun: BegunKey, key: Planes, y: &[u8], s: &[u8]) -> Result<(), Refusal>
    requires whole { Whole begun.held key.ones.now key.twos.now }
    requires fitted { packed_lengths begun.held (length y.now) (length s.now) ≡ 0 }
    ensures refusal { code_of result ≡ packed_contents begun.held key.entry.ones.now key.entry.twos.now y.now s.now }
    ensures readable { IfOk result (λ _. Row key.entry.ones.now key.entry.twos.now) }
{
    test_rows(begun, key)?;
    packing::faults::test_bytes(begun.row_trits(), y)?;
    packing::faults::test_bytes(begun.held.k as usize, s)
}

// Whether y and s in planes have their lengths.
fn test_lengths(begun: BegunKey, y: Planes, s: Planes) -> Result<(), Refusal>
    ensures { code_of result ≡ planes_lengths begun.held (length y.entry.ones.now) (length y.entry.twos.now)
        (length s.entry.ones.now) (length s.entry.twos.now) }
{
    let row = begun.row_words();
    let words = (begun.held.k as usize + 63) / 64;
    if y.ones.len() != row
        || y.twos.len() != row
        || s.ones.len() != words
        || s.twos.len() != words
    {
        return Err(Refusal::Length);
    }
    Ok(())
}

// Whether packed y and s have their lengths.
fn test_packed_lengths(begun: BegunKey, y: &[u8], s: &[u8]) -> Result<(), Refusal>
    ensures { code_of result ≡ packed_lengths begun.held (length y.now) (length s.now) }
{
    if y.len() != (begun.row_trits() + 4) / 5 || s.len() != (begun.held.k as usize + 4) / 5 {
        return Err(Refusal::Length);
    }
    Ok(())
}

// The first refusal of a check in planes. Planes that pass can be read.
pub fn test_check(
    held: Held,
    number: u64,
    key: Planes,
    y: Planes,
    s: Planes,
    work: Planes,
) -> Result<BegunKey, Refusal>
    ensures refusal { refusal_of result ≡ check_refusal (check_of held number key.entry.ones.now key.entry.twos.now
        y.entry.ones.now y.entry.twos.now s.entry.ones.now s.entry.twos.now work.entry.ones.now work.entry.twos.now) }
    ensures same { IfOk result (λ begun. begun.held ≡ held) }
    ensures readable { IfOk result (λ _. Row key.entry.ones.now key.entry.twos.now × Row y.entry.ones.now y.entry.twos.now
        × Row s.entry.ones.now s.entry.twos.now) }
{
    let begun = test_call(
        held,
        number,
        key.ones.len(),
        key.twos.len(),
        work.ones.len(),
        work.twos.len(),
    )?;
    test_lengths(begun, y, s)?;
    test_contents(begun, key, y, s)?;
    Ok(begun)
}

// The first refusal of a packed check. A key that passes can be read.
pub fn test_packed_check(
    held: Held,
    number: u64,
    key: Planes,
    y: &[u8],
    s: &[u8],
    work: Planes,
) -> Result<BegunKey, Refusal>
    ensures refusal { refusal_of result ≡ check_packed_refusal (packed_check_of held number key.entry.ones.now key.entry.twos.now
        y.now s.now work.entry.ones.now work.entry.twos.now) }
    ensures same { IfOk result (λ begun. begun.held ≡ held) }
    ensures readable { IfOk result (λ _. Row key.entry.ones.now key.entry.twos.now) }
{
    let begun = test_call(
        held,
        number,
        key.ones.len(),
        key.twos.len(),
        work.ones.len(),
        work.twos.len(),
    )?;
    test_packed_lengths(begun, y, s)?;
    test_packed_contents(begun, key, y, s)?;
    Ok(begun)
}
