// The tests of lent planes: a bit in both, a bit past the length. Both loops gather by index, with no branch inside.
ghost use Rattle.std.specs.Prelude.{◌≡◌, false, length, IfOk};
ghost use Rattle.trits.specs.Planes.{both_set, Apart, Row};
ghost use Rattle.trits.specs.Rows.{rows_past_end};
ghost use Rattle.trits.specs.Refusal.{code_of, planes_refusal};
ghost use Rattle.planes.specs.Steps.{ForPlanes};

use trits::Planes;
use trits::refusal::Refusal;

// Whether a bit is set in both planes, of any number of rows.
pub fn both_set(planes: Planes) -> bool
    requires { length planes.twos.now ≡ length planes.ones.now }
    ensures found { result ≡ both_set planes.entry.ones.now planes.entry.twos.now }
    ensures apart { result ≡ false → Apart planes.entry.ones.now planes.entry.twos.now }
{
    let Planes { ones, twos } = planes;
    let mut both: u64 = 0;
    for i in 0..ones.len() {
        both |= ones[i] & twos[i];
    }
    both != 0
}

// Whether a bit is set past the length in one of the rows, each of m trits: the last words of all rows are gathered.
pub fn rows_past_end(planes: Planes, rows: usize, m: usize) -> bool
    requires { ForPlanes planes.ones.now planes.twos.now rows m }
    ensures { result ≡ rows_past_end planes.entry.ones.now planes.entry.twos.now rows m }
{
    let used = m % 64;
    if used == 0 {
        return false;
    }
    let Planes { ones, twos } = planes;
    let words = m / 64 + 1;
    let mut past: u64 = 0;
    for i in 0..rows {
        let last = i * words + m / 64;
        past |= ones[last] | twos[last];
    }
    past >> used != 0
}

// The contents of one pair of planes: a bit past the length, over the whole buffer, before a bit in both. Planes that pass can be read.
pub fn test_planes(planes: Planes, rows: usize, m: usize) -> Result<(), Refusal>
    requires { ForPlanes planes.ones.now planes.twos.now rows m }
    ensures refusal { code_of result ≡ planes_refusal planes.entry.ones.now planes.entry.twos.now rows m }
    ensures readable { IfOk result (λ _. Row planes.entry.ones.now planes.entry.twos.now) }
{
    if rows_past_end(planes, rows, m) {
        return Err(Refusal::PastEnd);
    }
    if both_set(planes) {
        return Err(Refusal::BothPlanes);
    }
    Ok(())
}
