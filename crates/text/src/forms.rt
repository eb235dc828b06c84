// The three forms of a line: P begins a key, K has its next row, S has a signature.
ghost use Rattle.std.specs.Prelude.{◌≡◌, ◌<◌, length, MatchOption};
ghost use Rattle.text.specs.Fields.{fields};
ghost use Rattle.text.specs.Forms.{four_fields, one_field, key_of, row_of, sign_of, form_of, line_of};
ghost use Rattle.text.specs.Steps.{large, NotFour, FourOf, says, DigitsOf, bounded};

use super::fields::{is_digits, read_in_range, read_number, split_tab};

// What a line says, its digit fields as they stand in the line.
#[derive(Clone, Copy)]
pub enum Form<'a> {
    Key {
        number: u64,
        n: u64,
        k: u64,
        w: u64,
    },
    Row {
        digits: &'a [u8],
    },
    Sign {
        number: u64,
        formula: u64,
        y: &'a [u8],
        s: &'a [u8],
    },
}

// The fields of a text, if they are four.
fn four_fields(text: &[u8]) -> Option<(&[u8], &[u8], &[u8], &[u8])>
    ensures { MatchOption result (NotFour text.now) (λ f. FourOf text.now f.0.now f.1.now f.2.now f.3.now) }
{
    let (first, rest) = split_tab(text)?;
    let (second, rest) = split_tab(rest)?;
    let (third, fourth) = split_tab(rest)?;
    if split_tab(fourth).is_some() {
        return None;
    }
    Some((first, second, third, fourth))
}

// What follows the letter and its tab of a P line.
fn read_key(text: &[u8], most_key: u64) -> Option<Form<'_>>
    requires { most_key < large }
    ensures result_value { says result ≡ bounded (four_fields (key_of most_key) (fields text.now)) }
    ensures digits { DigitsOf (length text.now) result }
{
    let (number, n, k, w) = four_fields(text)?;
    Some(Form::Key {
        number: read_in_range(number, most_key)?,
        n: read_number(n)?,
        k: read_number(k)?,
        w: read_number(w)?,
    })
}

// What follows the letter and its tab of an S line.
fn read_sign(text: &[u8], most_key: u64) -> Option<Form<'_>>
    requires { most_key < large }
    ensures result_value { says result ≡ bounded (four_fields (sign_of most_key) (fields text.now)) }
    ensures digits { DigitsOf (length text.now) result }
{
    let (number, formula, y, s) = four_fields(text)?;
    let number = read_in_range(number, most_key)?;
    let formula = read_in_range(formula, 65535)?;
    if !(is_digits(y) && is_digits(s)) {
        return None;
    }
    Some(Form::Sign {
        number,
        formula,
        y,
        s,
    })
}

// What follows the letter and its tab of a K line.
fn read_row(text: &[u8]) -> Option<Form<'_>>
    ensures result_value { says result ≡ bounded (one_field row_of (fields text.now)) }
    ensures digits { DigitsOf (length text.now) result }
{
    if !is_digits(text) {
        return None;
    }
    Some(Form::Row { digits: text })
}

// The form that the letter names.
fn read_form(line: &[u8], most_key: u64) -> Option<Form<'_>>
    requires { most_key < large }
    ensures result_value { says result ≡ bounded (form_of most_key (fields line.now)) }
    ensures digits { DigitsOf (length line.now) result }
{
    let (letter, rest) = split_tab(line)?;
    if letter.len() != 1 {
        return None;
    }
    match letter[0] {
        b'P' => read_key(rest, most_key),
        b'K' => read_row(rest),
        b'S' => read_sign(rest, most_key),
        _ => None,
    }
}

// What a line says, where key numbers go from 0 to `most_key`; none where it has none of the three forms.
pub fn read_line(line: &[u8], most_key: u64) -> Option<Form<'_>>
    requires { most_key < large }
    ensures result_value { says result ≡ bounded (line_of most_key line.now) }
    ensures digits { DigitsOf (length line.now) result }
{
    if line.len() > 1024 {
        return None;
    }
    read_form(line, most_key)
}
