// A row written from packed bytes, six at a time. Its two planes are lent apart, since both are written.
// A row that is written stays two slices: it is a stretch of each plane, and of a slice the length and the ranges of words are known with no clause.
ghost use Rattle.std.specs.Prelude.{◌≡◌, ◌+◌, ◌-◌, ◌*◌, ◌%◌, ◌≤◌, length};
ghost use Rattle.trits.specs.Planes.{Reads};
ghost use Rattle.packed.specs.Packed.{packed_row};
ghost use Rattle.packed.specs.Steps.{piece_of};
ghost use Rattle.placing.specs.Steps.{Written, ForPieceOf, ForWriteBytes, ForWriteLast, ForWritePacked};

use super::masks::{byte_masks, mask};
use super::writer::Writer;

// The trits of the bytes `from` to `to` - 1, six of them at most, as a piece.
fn piece_of(masks: &[u64; 243], bytes: &[u8], from: usize, to: usize) -> u64
    requires { ForPieceOf masks.now bytes.now from to }
    ensures { result ≡ piece_of (λ k. packed_row bytes.now (5 * from + k)) (5 * (to - from)) }
{
    let mut piece = 0;
    for i in (from..to).rev() {
        piece = piece * 32 + mask(masks, bytes[i]);
    }
    piece
}

// The bytes are written six at a time, as long as there are six.
fn write_sixes(masks: &[u64; 243], bytes: &[u8], ones: &mut [u64], twos: &mut [u64]) -> Writer
    requires { ForWriteBytes masks.now bytes.now ones.old twos.old }
    ensures at_value { (result.at % 5 ≡ 0) × (result.at ≤ 5 * length bytes.now) }
    ensures written { Written (packed_row bytes.now) (length ones.old) ones.new twos.new result }
{
    let mut w = Writer::default();
    for six in 0..bytes.len() / 6 {
        let i = 6 * six;
        w.append(ones, twos, piece_of(masks, bytes, i, i + 6), 30);
    }
    w
}

// The bytes after those that are written, one by one.
fn write_last(
    masks: &[u64; 243],
    bytes: &[u8],
    ones: &mut [u64],
    twos: &mut [u64],
    begun: Writer,
) -> Writer
    requires { ForWriteLast masks.now bytes.now ones.old twos.old begun }
    ensures at_value { result.at ≡ 5 * length bytes.now }
    ensures written { Written (packed_row bytes.now) (length ones.old) ones.new twos.new result }
{
    let mut w = begun;
    for i in begun.at / 5..bytes.len() {
        w.append(ones, twos, mask(masks, bytes[i]), 5);
    }
    w
}

// The row of m trits of packed bytes that passed their tests; what the planes held before is gone.
pub fn write_packed(m: usize, bytes: &[u8], ones: &mut [u64], twos: &mut [u64])
    requires { ForWritePacked m bytes.now ones.old twos.old }
    ensures { Reads ones.new twos.new (length ones.old) (packed_row bytes.now) }
{
    let masks = byte_masks();
    let begun = write_sixes(&masks, bytes, ones, twos);
    let all = write_last(&masks, bytes, ones, twos, begun);
    all.finish(ones, twos);
}
