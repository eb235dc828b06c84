// The syndrome of a salt and a text.
// A row that is written stays two slices: it is a stretch of each plane, and of a slice the length and the ranges of words are known with no clause.
#![tactic(auto)]

pub mod reading; // trits read from the output of a state

ghost use Rattle.std.specs.Prelude.{◌≡◌};
ghost use Rattle.trits.specs.Planes.{ones_of, twos_of, words_for};
ghost use Rattle.trits.specs.Refusal.{code_of, at_exit};
ghost use Rattle.syndrome.specs.Syndrome.{hashed_row, hashed_refusal, syndrome_of, syndrome_refusal, syndrome_ones, syndrome_twos};
ghost use Rattle.syndrome.specs.Steps.{ForMake};

use trits::refusal::Refusal;

// How many bytes a salt has.
const SALT_LEN: usize = 32;

// m trits are made of a salt and a text.
pub fn make(
    m: usize,
    salt: &[u8],
    text: &[u8],
    ones: &mut [u64],
    twos: &mut [u64],
) -> Result<(), Refusal>
    requires { ForMake m salt.now text.now ones.old twos.old }
    ensures { let refusal = hashed_refusal m salt.now text.now in
        let y = hashed_row m salt.now text.now in
        (code_of result ≡ refusal) × (ones.new ≡ at_exit refusal (ones_of y (words_for m)) ones.old)
        × (twos.new ≡ at_exit refusal (twos_of y (words_for m)) twos.old) }
{
    let a = shake::absorbing::absorb(salt, text);
    if reading::too_short(m, a) {
        return Err(Refusal::StreamEnd);
    }
    reading::write_output(m, a, ones, twos);
    Ok(())
}

// The syndrome of a salt and a text, for a row of m trits.
pub fn syndrome(
    m: usize,
    salt: &[u8],
    text: &[u8],
    ones: &mut [u64],
    twos: &mut [u64],
) -> Result<(), Refusal>
    ensures { let c = syndrome_of m salt.now text.now ones.old twos.old in
        (code_of result ≡ syndrome_refusal c) × (ones.new ≡ syndrome_ones c) × (twos.new ≡ syndrome_twos c) }
{
    if m > 16384 {
        return Err(Refusal::Size);
    }
    let words = (m + 63) / 64;
    if ones.len() != words || twos.len() != words || salt.len() != SALT_LEN {
        return Err(Refusal::Length);
    }
    make(m, salt, text, ones, twos)
}
