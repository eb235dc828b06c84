// A row written from a stream of bytes, those of 243 or more being skipped.
// A row that is written stays two slices: it is a stretch of each plane, and of a slice the length and the ranges of words are known with no clause.
ghost use Rattle.std.specs.Prelude.{◌≡◌, ◌+◌, ◌*◌, ◌/◌, ◌%◌, ◌^◌, ◌≤◌, length};
ghost use Rattle.trits.specs.Planes.{Reads};
ghost use Rattle.packed.specs.Stream.{stream_row};
ghost use Rattle.placing.specs.Steps.{Written, BytePut, ForPutNext, ForPutStream, ForWriteStream};

use super::masks::{byte_masks, mask};
use super::writer::{HALF, Writer};

// Of a piece of five trits the first, so many of them.
fn first_trits(piece: u64, count: usize) -> u64
    requires { count ≤ 5 }
    ensures { result ≡ piece % 2 ^ 32 % 2 ^ count + 2 ^ 32 * (piece / 2 ^ 32 % 2 ^ count) }
{
    let end = 1 << count;
    piece % HALF % end + HALF * (piece / HALF % end)
}

// The trits that a byte gives come to the row, up to m of them in all.
pub fn put_next(
    masks: &[u64; 243],
    m: usize,
    b: u8,
    ones: &mut [u64],
    twos: &mut [u64],
    w: &mut Writer,
)
    requires { ForPutNext masks.now m ones.old twos.old w.old.at }
    ensures { BytePut m b ones.old twos.old w.old ones.new twos.new w.new }
{
    if b > 242 {
        return;
    }
    let left = m - w.at;
    if left < 5 {
        w.append(ones, twos, first_trits(mask(masks, b), left), left);
    } else {
        w.append(ones, twos, mask(masks, b), 5);
    }
}

// The bytes' trits come to a row of which nothing is written, until it has m.
fn put_stream(
    masks: &[u64; 243],
    m: usize,
    bytes: &[u8],
    ones: &mut [u64],
    twos: &mut [u64],
) -> Writer
    requires { ForPutStream masks.now m bytes.now ones.old twos.old }
    ensures at_value { result.at ≡ m }
    ensures written { Written (stream_row m bytes.now) (length ones.old) ones.new twos.new result }
{
    let mut w = Writer::default();
    for b in bytes {
        if w.at == m {
            return w;
        }
        put_next(masks, m, *b, ones, twos, &mut w);
    }
    w
}

// The row of m trits of a stream that has as many; what the planes held before is gone.
pub fn write_stream(m: usize, bytes: &[u8], ones: &mut [u64], twos: &mut [u64])
    requires { ForWriteStream m bytes.now ones.old twos.old }
    ensures { Reads ones.new twos.new (length ones.old) (stream_row m bytes.now) }
{
    let masks = byte_masks();
    let all = put_stream(&masks, m, bytes, ones, twos);
    all.finish(ones, twos);
}
