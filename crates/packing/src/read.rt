// Bytes made from a row.
ghost use Rattle.std.specs.Prelude.{◌≡◌, length};
ghost use Rattle.trits.specs.Planes.{trit_at, tabulate};
ghost use Rattle.packed.specs.Packed.{packed_bytes};
ghost use Rattle.packed.specs.Steps.{five_trits, byte_from};
ghost use Rattle.packing.specs.Steps.{ForFiveTrits, ForReadTwelve, ForReadBytes};

use super::table::digit_values;
use planes::places::bits_from;
use trits::Planes;

// The byte of five trits, whose bits are the lowest five of x and of y.
fn five_trits(values: &[u8; 32], x: u64, y: u64) -> u8
    requires { ForFiveTrits values.now x y }
    ensures { result ≡ five_trits x y }
{
    values[(x % 32) as usize] + 2 * values[(y % 32) as usize]
}

// A part of twelve bytes or fewer, from the bits of its trits.
fn read_twelve(values: &[u8; 32], x: u64, y: u64, part: &mut [u8])
    requires { ForReadTwelve values.now x y part.old }
    ensures { part.new ≡ tabulate (byte_from x y) (length part.old) }
{
    for (k, byte) in part.iter_mut().enumerate() {
        *byte = five_trits(values, x >> 5 * k, y >> 5 * k);
    }
}

// All bytes of a row of m trits.
pub fn read_bytes(m: usize, row: Planes, bytes: &mut [u8])
    requires { ForReadBytes m row.ones.now row.twos.now bytes.old }
    ensures { bytes.new ≡ packed_bytes m (trit_at row.entry.ones.now row.entry.twos.now) }
{
    let values = digit_values();
    for k in 0..(bytes.len() + 11) / 12 {
        let j = 12 * k;
        let end = bytes.len().min(j + 12);
        let x = bits_from(row.ones, 5 * j);
        let y = bits_from(row.twos, 5 * j);
        read_twelve(&values, x, y, &mut bytes[j..end]);
    }
}
