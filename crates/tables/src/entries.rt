// The number of a trit, and the entries of tables that twelve trits stand for, four and four.
ghost use Rattle.std.specs.Prelude.{◌≡◌, ◌+◌, ◌*◌, ◌%◌, ◌≤◌, ◌<◌, length};
ghost use Rattle.trits.specs.Trit.{number};
ghost use Rattle.trits.specs.Planes.{trit_at, Row};
ghost use Rattle.tables.specs.Steps.{Twelve, digit_pairs};

use trits::Planes;

// The number of the trit at place p, without a branch.
pub fn number_at(m: Planes, p: usize) -> usize
    requires row { Row m.ones.now m.twos.now }
    requires p_bound { p < 64 * length m.ones.now }
    ensures { result ≡ number (trit_at m.entry.ones.now m.entry.twos.now p) }
{
    let j = p / 64;
    let b = p % 64;
    let x = (m.ones[j] >> b & 1) as usize;
    let y = (m.twos[j] >> b & 1) as usize;
    x + 2 * y
}

// Twelve bits of a plane from place p on: the lowest of the word that is answered.
pub fn twelve_from(plane: &[u64], p: usize) -> u64
    requires { p + 12 ≤ 64 * length plane.now }
    ensures { Twelve plane.now p result }
{
    let j = p / 64;
    let b = p % 64;
    let n = plane[j] >> b;
    if b > 52 {
        n | plane[j + 1] << (64 - b)
    } else {
        n
    }
}

// Of the lowest twelve bits the first two of each four, as digits of a number to the base 3: each number in four bits of its own.
pub fn pairs(n: u64) -> u64
    ensures { result ≡ digit_pairs n }
{
    let pair = n % 4 + 16 * (n / 16 % 4) + 256 * (n / 256 % 4);
    let second = n / 2 % 2 + 16 * (n / 32 % 2) + 256 * (n / 512 % 2);
    pair + second
}

// The numbers of the first two trits of each four, whose bits are the lowest twelve of x and y.
pub fn numbers(x: u64, y: u64) -> u64
    ensures { result ≡ digit_pairs x + 2 * digit_pairs y }
{
    pairs(x) + 2 * pairs(y)
}

// The entry of four trits: the number of the first two stands in the lowest bits of a, and that of the others in those of b.
pub fn entry(a: u64, b: u64) -> usize
    ensures { result ≡ a % 16 + 9 * (b % 16) }
{
    (a % 16 + 9 * (b % 16)) as usize
}
