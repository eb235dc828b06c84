// The lines that are printed, written into a lent buffer; each call answers how many bytes it wrote, or the next place.
// There is no heap, and what is written is proved byte by byte: so a buffer with a place, and no formatter.
ghost use Rattle.std.specs.Prelude.{◌≡◌, [], ◌∷◌, ◌++◌, ◌+◌, ◌≤◌, ◌<◌, length, eqb};
ghost use Rattle.trits.specs.Rows.{put_words};
ghost use Rattle.text.specs.Numbers.{decimal};
ghost use Rattle.text.specs.Answers.{yes_no, ones_plus_twos, header, verdict_answer, sign_refused, line_refused};
ghost use Rattle.text.specs.Steps.{pair, refused_end};

use trits::Counts;

// A byte at a place.
fn put_byte(out: &mut [u8], at: usize, b: u8) -> usize
    requires { at < length out.old }
    ensures value { result ≡ at + 1 }
    ensures out_after { out.new ≡ put_words at out.old (b ∷ []) }
{
    out[at] = b;
    at + 1
}

// Bytes from a place on.
fn put_bytes(out: &mut [u8], at: usize, bytes: &[u8]) -> usize
    requires { at + length bytes.now ≤ length out.old }
    ensures value { result ≡ at + length bytes.now }
    ensures out_after { out.new ≡ put_words at out.old bytes.now }
{
    let end = at + bytes.len();
    out[at..end].copy_from_slice(bytes);
    end
}

// A number in decimal.
fn put_decimal(out: &mut [u8], at: usize, n: u64) -> usize
    requires { at + length (decimal n) ≤ length out.old }
    ensures value { result ≡ at + length (decimal n) }
    ensures out_after { out.new ≡ put_words at out.old (decimal n) }
{
    if n < 10 {
        return put_byte(out, at, b'0' + n as u8);
    }
    let next = put_decimal(out, at, n / 10);
    put_byte(out, next, b'0' + (n % 10) as u8)
}

// Key and formula, each with the tab after it.
#[tactic(auto, using(crate::proofs::Written::twenty_digits))]
fn put_pair(out: &mut [u8], key: u64, formula: u64) -> usize
    requires { 42 ≤ length out.old }
    ensures value { (result ≡ length (pair key formula)) × (result ≤ 42) }
    ensures out_after { out.new ≡ put_words 0 out.old (pair key formula) }
{
    let a = put_decimal(out, 0, key);
    let b = put_byte(out, a, b'\t');
    let c = put_decimal(out, b, formula);
    put_byte(out, c, b'\t')
}

// No weight, and the number of a refusal, to the line's end.
#[tactic(auto, using(crate::proofs::Written::twenty_digits))]
fn put_refused(out: &mut [u8], at: usize, refusal: u64) -> usize
    requires { at + 24 ≤ length out.old }
    ensures value { result ≡ at + length (refused_end refusal) }
    ensures out_after { out.new ≡ put_words at out.old (refused_end refusal) }
{
    let a = put_bytes(out, at, b"-\tr");
    let b = put_decimal(out, a, refusal);
    put_byte(out, b, b'\n')
}

// The weight: ones, a plus sign, twos. Two numbers and no `Counts`: that a field fits its type closed no proof here.
#[tactic(auto, using(crate::proofs::Written::twenty_digits))]
fn put_counts(out: &mut [u8], at: usize, ones: u64, twos: u64) -> usize
    requires { at + 41 ≤ length out.old }
    ensures value { (result ≡ at + length (ones_plus_twos ones twos)) × (result ≤ at + 41) }
    ensures out_after { out.new ≡ put_words at out.old (ones_plus_twos ones twos) }
{
    let a = put_decimal(out, at, ones);
    let b = put_byte(out, a, b'+');
    put_decimal(out, b, twos)
}

// Yes or no, to the line's end.
fn put_word(out: &mut [u8], at: usize, yes: bool) -> usize
    requires { at + 4 ≤ length out.old }
    ensures value { result ≡ at + length (yes_no yes ++ (10 ∷ [])) }
    ensures out_after { out.new ≡ put_words at out.old (yes_no yes ++ (10 ∷ [])) }
{
    if yes {
        put_bytes(out, at, b"yes\n")
    } else {
        put_bytes(out, at, b"no\n")
    }
}

// The answer to an S line that is not refused: yes where `yes` is 1.
pub fn put_verdict(out: &mut [u8], key: u64, formula: u64, counts: Counts, yes: u64) -> usize
    requires { 96 ≤ length out.old }
    ensures value { result ≡ length (verdict_answer key formula counts.ones counts.twos (eqb yes 1)) }
    ensures out_after { out.new ≡ put_words 0 out.old (verdict_answer key formula counts.ones counts.twos (eqb yes 1)) }
{
    let a = put_pair(out, key, formula);
    let b = put_counts(out, a, counts.ones, counts.twos);
    let c = put_byte(out, b, b'\t');
    put_word(out, c, yes == 1)
}

// The answer to a well-formed S line that is refused, by the number of the refusal.
pub fn put_sign_refused(out: &mut [u8], key: u64, formula: u64, refusal: u64) -> usize
    requires { 96 ≤ length out.old }
    ensures value { result ≡ length (sign_refused key formula refusal) }
    ensures out_after { out.new ≡ put_words 0 out.old (sign_refused key formula refusal) }
{
    let a = put_pair(out, key, formula);
    put_refused(out, a, refusal)
}

// The answer to any other line that is refused, by the number of the refusal.
pub fn put_line_refused(out: &mut [u8], refusal: u64) -> usize
    requires { 96 ≤ length out.old }
    ensures value { result ≡ length (line_refused refusal) }
    ensures out_after { out.new ≡ put_words 0 out.old (line_refused refusal) }
{
    let a = put_bytes(out, 0, b"-\t-\t");
    put_refused(out, a, refusal)
}

// The header.
pub fn put_header(out: &mut [u8]) -> usize
    requires { 96 ≤ length out.old }
    ensures value { result ≡ length header }
    ensures out_after { out.new ≡ put_words 0 out.old header }
{
    put_bytes(out, 0, b"key\tformula\tweight\tverdict\n")
}
