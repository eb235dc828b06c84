// Trits read from the output of a state.
// A row that is written stays two slices: it is a stretch of each plane, and of a slice the length and the ranges of words are known with no clause.
ghost use Rattle.std.specs.Prelude.{◌≡◌, ◌≤◌, length};
ghost use Rattle.trits.specs.Planes.{Reads};
ghost use Rattle.packed.specs.Stream.{stream_row, too_short};
ghost use Rattle.packed.specs.Calls.{most_trits};
ghost use Rattle.placing.specs.Steps.{Written};
ghost use Rattle.syndrome.specs.Steps.{output_for, ForPutOutput, ForWriteOutput};

use placing::stream::put_next;
use placing::writer::Writer;
use shake::squeezing::Output;

// Whether the output that is looked at gives fewer than m trits.
pub fn too_short(m: usize, a: [[u64; 5]; 5]) -> bool
    requires { m ≤ most_trits }
    ensures { result ≡ too_short m (output_for m a) }
{
    let end = m + 136;
    let mut left = m;
    let mut output = Output::of(a);
    for _read in 0..end {
        if left == 0 {
            return false;
        }
        left = packing::faults::count_byte(left, output.next());
    }
    left != 0
}

// The output's trits come to a row of which nothing is written, until it has m.
fn put_output(
    masks: &[u64; 243],
    m: usize,
    a: [[u64; 5]; 5],
    ones: &mut [u64],
    twos: &mut [u64],
) -> Writer
    requires { ForPutOutput masks.now m a ones.old twos.old }
    ensures at_value { result.at ≡ m }
    ensures written { Written (stream_row m (output_for m a)) (length ones.old) ones.new twos.new result }
{
    let mut output = Output::of(a);
    let mut w = Writer::default();
    for _read in 0..m + 136 {
        if w.at == m {
            return w;
        }
        let byte = output.next();
        put_next(masks, m, byte, ones, twos, &mut w);
    }
    w
}

// The row of m trits of an output that has as many; what the planes held before is gone.
pub fn write_output(m: usize, a: [[u64; 5]; 5], ones: &mut [u64], twos: &mut [u64])
    requires { ForWriteOutput m a ones.old twos.old }
    ensures { Reads ones.new twos.new (length ones.old) (stream_row m (output_for m a)) }
{
    let masks = placing::masks::byte_masks();
    let all = put_output(&masks, m, a, ones, twos);
    all.finish(ones, twos);
}
