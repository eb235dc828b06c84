// The tests for 5, 15 and 6: a packed byte above 242, a nonzero trit past the length, and a stream that ends too soon.
ghost use Rattle.std.specs.Prelude.{◌≡◌, false, length};
ghost use Rattle.trits.specs.Refusal.{code_of};
ghost use Rattle.packed.specs.Packed.{bytes_for, bad_byte, packed_past_end, packed_refusal};
ghost use Rattle.packed.specs.Stream.{too_short};
ghost use Rattle.packed.specs.Steps.{missing};

use trits::refusal::Refusal;

// Whether a byte is above 242.
pub fn bad_byte(bytes: &[u8]) -> bool
    ensures { result ≡ bad_byte bytes.now }
{
    let mut bad = false;
    for b in bytes {
        bad |= *b > 242;
    }
    bad
}

// Whether a trit past the length is not 0, in the bytes of m trits: the last byte tells it.
fn packed_past_end(m: usize, bytes: &[u8]) -> bool
    requires { (length bytes.now ≡ bytes_for m) × (bad_byte bytes.now ≡ false) }
    ensures { result ≡ packed_past_end m bytes.now }
{
    let used = m % 5;
    if used == 0 {
        return false;
    }
    bytes[m / 5] >= 3u8.pow(used as u32)
}

// The contents of a packed row of m trits: a byte above 242, over the whole buffer, before a trit past the length.
pub fn test_bytes(m: usize, bytes: &[u8]) -> Result<(), Refusal>
    requires { length bytes.now ≡ bytes_for m }
    ensures { code_of result ≡ packed_refusal m bytes.now }
{
    if bad_byte(bytes) {
        return Err(Refusal::PackedByte);
    }
    if packed_past_end(m, bytes) {
        return Err(Refusal::PackedPastEnd);
    }
    Ok(())
}

// How many trits are missing after one more byte.
pub fn count_byte(left: usize, b: u8) -> usize
    ensures { result ≡ missing left b }
{
    if b > 242 {
        left
    } else {
        left.saturating_sub(5)
    }
}

// Whether the stream ends before m trits.
pub fn too_short(m: usize, bytes: &[u8]) -> bool
    ensures { result ≡ too_short m bytes.now }
{
    let mut left = m;
    for b in bytes {
        if left == 0 {
            return false;
        }
        left = count_byte(left, *b);
    }
    left != 0
}
