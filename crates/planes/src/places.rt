// Places of a row: a trit read, or another put there; and 64 places of a plane read at once.
// A row that is written stays two slices: it is a stretch of each plane, and of a slice the length and the ranges of words are known with no clause.
ghost use Rattle.std.specs.Prelude.{◌≡◌, cond, ◌+◌, ◌*◌, ◌<◌, length};
ghost use Rattle.trits.specs.Trit.{number, trit_of, put_v};
ghost use Rattle.trits.specs.Planes.{from_bits, bit_at, trit_at, Reads, with_bit};
ghost use Rattle.planes.specs.Steps.{ForPutTrit};

use trits::Planes;

// The trit at a place.
pub fn trit_at(row: Planes, i: usize) -> u8
    requires twos_len { length row.twos.now ≡ length row.ones.now }
    requires i_bound { i < 64 * length row.ones.now }
    ensures { result ≡ number (trit_at row.entry.ones.now row.entry.twos.now i) }
{
    let j = i / 64;
    let b = i % 64;
    if row.ones[j] >> b & 1 != 0 {
        1
    } else if row.twos[j] >> b & 1 != 0 {
        2
    } else {
        0
    }
}

// The 64 bits of a plane from place p on; past the plane's end there is 0.
pub fn bits_from(plane: &[u64], p: usize) -> u64
    requires { p < 64 * length plane.now }
    ensures { result ≡ from_bits (λ b. bit_at plane.now (p + b)) 64 }
{
    let j = p / 64;
    let b = p % 64;
    let n = plane[j] >> b;
    if b == 0 || plane.len() <= j + 1 {
        return n;
    }
    n | plane[j + 1] << (64 - b)
}

// A word with one bit set or cleared.
pub fn with_bit(w: u64, b: usize, on: bool) -> u64
    requires { b < 64 }
    ensures { result ≡ with_bit b (cond on 1 0) w }
{
    let m: u64 = 1 << b;
    if on { w | m } else { w ^ (w & m) }
}

// The trit t is put at a place.
pub fn put_trit(ones: &mut [u64], twos: &mut [u64], i: usize, t: u8)
    requires { ForPutTrit ones.old twos.old i t }
    ensures { Reads ones.new twos.new (length ones.old)
        (put_v (trit_at ones.old twos.old) i (trit_of t)) }
{
    let j = i / 64;
    let b = i % 64;
    ones[j] = with_bit(ones[j], b, t == 1);
    twos[j] = with_bit(twos[j], b, t == 2);
}
