// Digit fields offered to the checker as planes of words.
ghost use Rattle.std.specs.Prelude.{◌≡◌, ◌-◌, ◌≤◌, take};
ghost use Rattle.held_key.specs.Held.{row_trits, row_words, key_words};
ghost use Rattle.text_line.specs.Answer.{asked, offered_ones, offered_twos};
ghost use Rattle.text_line.specs.Steps.{ForOffer};

use held_key::state::Held;
use trits::Planes;

// The most places of a key that the program takes.
pub const MOST_PLACES: u64 = 256;

// The trits of a row.
pub fn row_trits(held: Held) -> u64
    ensures { result ≡ row_trits held }
{
    held.n.saturating_sub(held.k)
}

// The words of one row, where the state's sizes are in reach.
pub fn row_words(held: Held) -> usize
    ensures value { result ≡ asked held (row_words held) }
    ensures upper_bound { result ≤ 16 }
{
    if held.n > MOST_PLACES || held.k > held.n {
        return 0;
    }
    (row_trits(held) as usize + 63) / 64
}

// The words of the whole key in one plane; the most are 382, 191 rows of 65 trits at n = 256.
pub fn key_words(held: Held) -> usize
    ensures value { result ≡ asked held (key_words held) }
    ensures upper_bound { result ≤ 382 }
{
    held.k as usize * row_words(held)
}

// The digits for a row of m trits are written to planes that are 0; how many words they take, none where their count is not m.
pub fn offer(digits: &[u8], m: u64, ones: &mut [u64], twos: &mut [u64]) -> usize
    requires { ForOffer digits.now ones.old twos.old }
    ensures upper_bound { result ≤ 16 }
    ensures ones_after { take result ones.new ≡ offered_ones m digits.now }
    ensures twos_after { take result twos.new ≡ offered_twos m digits.now }
{
    if digits.len() as u64 != m {
        return 0;
    }
    text::digits::put_digits(digits, ones, twos);
    (digits.len() + 63) / 64
}

// The same, and the words that they take, lent.
pub(crate) fn offered<'a>(
    digits: &[u8],
    m: u64,
    ones: &'a mut [u64],
    twos: &'a mut [u64],
) -> Planes<'a>
    requires { ForOffer digits.now ones.old twos.old }
    ensures ones_after { result.ones.now ≡ offered_ones m digits.now }
    ensures twos_after { result.twos.now ≡ offered_twos m digits.now }
{
    let words = offer(digits, m, ones, twos);
    Planes {
        ones: &ones[..words],
        twos: &twos[..words],
    }
}
