// Choices for draws, made up: the same ones on every run.
ghost use Rattle.std.specs.Prelude.{◌≡◌, ◌+◌, ◌*◌, ◌/◌, ◌%◌, ◌<◌, ◌≤◌, length};
ghost use Rattle.trits.specs.Refusal.{code_of};
ghost use Rattle.packed.specs.Calls.{unpack_of, unpack_refusal, unpack_ones, unpack_twos};
ghost use Rattle.sign_lines.specs.{following, number_after, packed_after, turned, ring_order};
ghost use Rattle.sign_lines.specs.Steps.{ForTurn, ForFillOrder};

use trits::refusal::Refusal;

// The number that follows x in a sequence of numbers below 65,537.
pub fn next(x: u64) -> u64
    ensures { result ≡ following x }
{
    (75 * (x % 65537) + 74) % 65537
}

// A packed byte.
pub fn packed(x: u64) -> u8
    ensures { result ≡ x % 243 }
{
    (x % 243) as u8
}

// Packed bytes by the numbers that follow x; the answer is the last number.
pub fn fill_bytes(bytes: &mut [u8], x: u64) -> u64
    ensures value { result ≡ number_after (length bytes.old) x }
    ensures bytes_after { bytes.new ≡ packed_after (length bytes.old) x }
{
    let mut state = x;
    for byte in bytes.iter_mut() {
        state = next(state);
        *byte = packed(state);
    }
    state
}

// A row of m trits, unpacked from such bytes; the last number of the sequence, and what became of the row.
fn unpack_row(
    m: usize,
    x: u64,
    bytes: &mut [u8],
    ones: &mut [u64],
    twos: &mut [u64],
) -> (u64, Result<(), Refusal>)
    ensures { let c = unpack_of m (packed_after (length bytes.old) x) ones.old twos.old in
        (code_of result.1 ≡ unpack_refusal c) × (result.0 ≡ number_after (length bytes.old) x)
        × (ones.new ≡ unpack_ones c) × (twos.new ≡ unpack_twos c) }
{
    let last = fill_bytes(bytes, x);
    (last, packing::unpack(m, bytes, ones, twos))
}

// The same with bytes of its own.
pub fn fill_row(m: usize, x: u64, ones: &mut [u64], twos: &mut [u64]) -> (u64, Result<(), Refusal>)
    requires { m ≤ 16384 }
    ensures { let c = unpack_of m (packed_after ((m + 4) / 5) x) ones.old twos.old in
        (code_of result.1 ≡ unpack_refusal c) × (result.0 ≡ number_after ((m + 4) / 5) x)
        × (ones.new ≡ unpack_ones c) × (twos.new ≡ unpack_twos c) }
{
    let b = m.div_ceil(5);
    let mut bytes = [0u8; 3277];
    unpack_row(m, x, &mut bytes[..b], ones, twos)
}

// The place a further on, of n places in a ring.
fn turn(q: usize, a: usize, n: usize) -> usize
    requires { ForTurn q a n }
    ensures value { result ≡ turned n a q }
    ensures upper_bound { result < n }
{
    if q + a < n { q + a } else { q + a - n }
}

// The order whose place j is b + a j in a ring of as many places.
pub fn fill_order(order: &mut [u16], a: usize, b: usize)
    requires { ForFillOrder order.old a b }
    ensures { order.new ≡ ring_order (length order.old) a b (length order.old) }
{
    let n = order.len();
    let mut q = b;
    for item in order.iter_mut() {
        *item = place(q);
        q = turn(q, a, n);
    }
}

// A place as an order has it.
pub fn place(q: usize) -> u16
    ensures { result ≡ q % 65536 }
{
    (q % 65536) as u16
}
