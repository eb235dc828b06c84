// One field of a line: its end, a number, or digits.
ghost use Rattle.std.specs.Prelude.{◌≡◌, [], ◌∷◌, ◌+◌, ◌<◌, true, false, MatchOption, position, ◌==◌};
ghost use Rattle.text.specs.Fields.{fields, all_between};
ghost use Rattle.text.specs.Numbers.{is_number, value, in_range};
ghost use Rattle.text.specs.Digits.{is_digits};
ghost use Rattle.text.specs.Steps.{PartedAt, large, at_most_large};

// The place of the first tab; none where there is no tab.
pub fn find_tab(text: &[u8]) -> Option<usize>
    ensures { result ≡ position (λ b. b == 9) text.now }
{
    text.iter().position(|b| *b == b'\t')
}

// A text parted at its first tab: what stands before it and what follows it.
pub fn split_tab(text: &[u8]) -> Option<(&[u8], &[u8])>
    ensures { MatchOption result (fields text.now ≡ text.now ∷ []) (λ p. PartedAt text.now p.0.now p.1.now) }
{
    let at = find_tab(text)?;
    Some((&text[..at], &text[at + 1..]))
}

// Whether every byte is one of those from `low` to `high`.
#[tactic(auto, unfolding(crate::specs::Fields::all_between))]
pub fn all_between(field: &[u8], low: u8, high: u8) -> bool
    ensures { result ≡ all_between low high field.now }
{
    field.iter().all(|b| low <= *b && *b <= high)
}

// Whether a field is a number in decimal without leading zeros.
pub fn is_number(field: &[u8]) -> bool
    ensures { result ≡ is_number field.now }
{
    match field {
        [] => false,
        [_] => all_between(field, b'0', b'9'),
        [first, _, ..] => *first != b'0' && all_between(field, b'0', b'9'),
    }
}

// The number that whatever is too large for any range counts as: 10 to the power 18.
pub const LARGE: u64 = 1000000000000000000;

// The value of a number of any number of digits, at most `LARGE`.
pub fn read_value(field: &[u8]) -> u64
    ensures { result ≡ at_most_large (value field.now) }
{
    let mut v: u64 = 0;
    for b in field {
        v = 10 * v + u64::from(b.saturating_sub(b'0'));
        if v >= LARGE {
            return LARGE;
        }
    }
    v
}

// The value of a number, at most `LARGE`.
pub fn read_number(field: &[u8]) -> Option<u64>
    ensures { MatchOption result (is_number field.now ≡ false) (λ v. (is_number field.now ≡ true) × (v ≡ at_most_large (value field.now))) }
{
    if !is_number(field) {
        return None;
    }
    Some(read_value(field))
}

// The value of a number from 0 to `most`.
pub fn read_in_range(field: &[u8], most: u64) -> Option<u64>
    requires { most < large }
    ensures { MatchOption result (in_range most field.now ≡ false) (λ v. (in_range most field.now ≡ true) × (v ≡ value field.now)) }
{
    let v = read_number(field)?;
    if v > most {
        return None;
    }
    Some(v)
}

// Whether a field is one or more of 0, 1, 2.
pub fn is_digits(field: &[u8]) -> bool
    ensures { result ≡ is_digits field.now }
{
    !field.is_empty() && all_between(field, b'0', b'2')
}
