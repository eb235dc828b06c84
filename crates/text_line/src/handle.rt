// One line: a key begun, a row stored, a signature checked, and what is printed of it.
// What is written stays two slices: of a slice the length and the ranges of words are known with no clause, of one in a struct they are not.
ghost use Rattle.std.specs.Prelude.{◌≡◌, ◌≤◌, length};
ghost use Rattle.trits.specs.Rows.{put_words};
ghost use Rattle.held_key.specs.Store.{refusal_of, held_after};
ghost use Rattle.check_tests.specs.Check.{told};
ghost use Rattle.text_line.specs.Answer.{key_refusal, key_held, digits_refusal, row_kept, sign_answer, sign_prints, refusal_prints, line_prints, line_kept};
ghost use Rattle.text_line.specs.Answer.{read_line, holding};
ghost use Rattle.text_line.specs.Steps.{ForStoreDigits, ForCheckDigits, ForHandleRow, ForHandleSign, ForHandle};

use super::offer::{MOST_PLACES, key_words, offered, row_trits, row_words};
use check_tests::Verdict;
use held_key::state::Held;
use text::forms::Form;
use trits::Planes;
use trits::refusal::Refusal;

// The state after a line, and how many bytes of the lent buffer are to be printed.
// A count and not the part: what the buffer has past it is promised too.
#[derive(Clone, Copy)]
pub struct Handled {
    pub held: Held,
    pub count: usize,
}

// A key is begun, if its n is at most 256.
fn begin_key(held: Held, number: u64, n: u64, k: u64, w: u64) -> Result<Held, Refusal>
    ensures refusal { refusal_of result ≡ key_refusal number n k w }
    ensures state { held_after held result ≡ key_held held number n k w }
{
    if n > MOST_PLACES {
        return Err(Refusal::Size);
    }
    held_key::begin(held, number, n, k, w)
}

// A row of digits is stored.
fn store_digits(
    held: Held,
    ones: &mut [u64],
    twos: &mut [u64],
    digits: &[u8],
) -> Result<Held, Refusal>
    requires { ForStoreDigits ones.old twos.old digits.now }
    ensures refusal { refusal_of result ≡ digits_refusal (holding held ones.old twos.old) digits.now }
    ensures kept { holding (held_after held result) ones.new twos.new ≡ row_kept (holding held ones.old twos.old)
        digits.now }
{
    let mut row_ones = [0; 16];
    let mut row_twos = [0; 16];
    let row = offered(digits, row_trits(held), &mut row_ones, &mut row_twos);
    let words = key_words(held);
    held_key::store_row(held, &mut ones[..words], &mut twos[..words], row)
}

// A signature of digits is checked.
fn check_digits(
    held: Held,
    number: u64,
    key: Planes,
    y: &[u8],
    s: &[u8],
) -> Result<Verdict, Refusal>
    requires { ForCheckDigits key.ones.now key.twos.now y.now s.now }
    ensures { told result ≡ sign_answer (holding held key.entry.ones.now key.entry.twos.now) number y.now s.now }
{
    let mut y_ones = [0; 16];
    let mut y_twos = [0; 16];
    let y = offered(y, row_trits(held), &mut y_ones, &mut y_twos);
    let mut s_ones = [0; 16];
    let mut s_twos = [0; 16];
    let s = offered(s, held.k, &mut s_ones, &mut s_twos);
    let mut work_ones = [0; 16];
    let mut work_twos = [0; 16];
    let row = row_words(held);
    let words = key_words(held);
    let key = Planes {
        ones: &key.ones[..words],
        twos: &key.twos[..words],
    };
    checker::check(
        held,
        number,
        key,
        y,
        s,
        &mut work_ones[..row],
        &mut work_twos[..row],
    )
}

// The state after a P or a K line; only a refusal is printed, and leaves the state as it was.
fn print_changed(held: Held, changed: Result<Held, Refusal>, out: &mut [u8]) -> Handled
    requires { 96 ≤ length out.old }
    ensures held_value { result.held ≡ held_after held changed }
    ensures count_value { result.count ≡ length (refusal_prints (refusal_of changed)) }
    ensures out_after { out.new ≡ put_words 0 out.old (refusal_prints (refusal_of changed)) }
{
    match changed {
        Ok(held) => Handled { held, count: 0 },
        Err(refusal) => Handled {
            held,
            count: text::answers::put_line_refused(out, u64::from(refusal)),
        },
    }
}

// The answer to an S line.
fn print_sign(number: u64, formula: u64, answer: Result<Verdict, Refusal>, out: &mut [u8]) -> usize
    requires { 96 ≤ length out.old }
    ensures value { result ≡ length (sign_prints number formula (told answer)) }
    ensures out_after { out.new ≡ put_words 0 out.old (sign_prints number formula (told answer)) }
{
    match answer {
        Ok(Verdict::Yes(counts)) => text::answers::put_verdict(out, number, formula, counts, 1),
        Ok(Verdict::No(counts)) => text::answers::put_verdict(out, number, formula, counts, 0),
        Err(refusal) => text::answers::put_sign_refused(out, number, formula, u64::from(refusal)),
    }
}

// A P line.
fn handle_key(number: u64, n: u64, k: u64, w: u64, held: Held, out: &mut [u8]) -> Handled
    requires { 96 ≤ length out.old }
    ensures held_value { result.held ≡ key_held held number n k w }
    ensures count_value { result.count ≡ length (refusal_prints (key_refusal number n k w)) }
    ensures out_after { out.new ≡ put_words 0 out.old (refusal_prints (key_refusal number n k w)) }
{
    print_changed(held, begin_key(held, number, n, k, w), out)
}

// A K line.
fn handle_row(
    digits: &[u8],
    held: Held,
    ones: &mut [u64],
    twos: &mut [u64],
    out: &mut [u8],
) -> Handled
    requires { ForHandleRow digits.now ones.old twos.old out.old }
    ensures twos_after { holding result.held ones.new twos.new ≡ row_kept (holding held ones.old twos.old)
        digits.now }
    ensures count_value { result.count ≡ length (refusal_prints (digits_refusal (holding held ones.old twos.old) digits.now)) }
    ensures out_after { out.new ≡ put_words 0 out.old
        (refusal_prints (digits_refusal (holding held ones.old twos.old) digits.now)) }
{
    print_changed(held, store_digits(held, ones, twos, digits), out)
}

// An S line.
fn handle_sign(
    number: u64,
    formula: u64,
    y: &[u8],
    s: &[u8],
    held: Held,
    key: Planes,
    out: &mut [u8],
) -> usize
    requires { ForHandleSign y.now s.now key.ones.now key.twos.now out.old }
    ensures value { result ≡ length (sign_prints number formula (sign_answer (holding held key.entry.ones.now key.entry.twos.now) number y.now
        s.now)) }
    ensures out_after { out.new ≡ put_words 0 out.old
        (sign_prints number formula (sign_answer (holding held key.entry.ones.now key.entry.twos.now) number y.now s.now)) }
{
    print_sign(number, formula, check_digits(held, number, key, y, s), out)
}

// Any line.
pub fn handle(
    line: &[u8],
    held: Held,
    ones: &mut [u64],
    twos: &mut [u64],
    out: &mut [u8],
) -> Handled
    requires { ForHandle line.now ones.old twos.old out.old }
    ensures twos_after { holding result.held ones.new twos.new ≡ line_kept (holding held ones.old twos.old)
        (read_line line.now) }
    ensures count_value { result.count ≡ length (line_prints (holding held ones.old twos.old) (read_line line.now)) }
    ensures out_after { out.new ≡ put_words 0 out.old
        (line_prints (holding held ones.old twos.old) (read_line line.now)) }
{
    match text::forms::read_line(line, held_key::state::MOST_KEY_NUMBER) {
        Some(Form::Key { number, n, k, w }) => handle_key(number, n, k, w, held, out),
        Some(Form::Row { digits }) => handle_row(digits, held, ones, twos, out),
        Some(
            Form::Sign {
                number,
                formula,
                y,
                s,
            },
        ) => Handled {
            held,
            count: handle_sign(number, formula, y, s, held, Planes { ones, twos }, out),
        },
        None => print_changed(held, Err(Refusal::Line), out),
    }
}
