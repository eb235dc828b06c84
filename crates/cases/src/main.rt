// Runs the packing calls on worked cases, and prints what each answers and leaves.
#![tactic(auto)]

mod show; // what is printed

ghost use Rattle.std.specs.Prelude.{◌≡◌, ◌+◌, ◌-◌, ◌*◌, ◌%◌, ◌<◌, length, set};
ghost use Rattle.trits.specs.Planes.{tabulate};

use std::io;
use trits::Planes;

// Bytes 3, 10, 17 and so on, modulo 243, and 1 at the end, are unpacked into planes that hold other words, and packed again.
fn there_and_back(
    rt: &impl Print,
    m: usize,
    bytes: &mut [u8],
    ones: &mut [u64],
    twos: &mut [u64],
    out: &mut [u8],
) -> io::Result<()> {
    fill(bytes);
    end_in_one(bytes);
    show::unpack(rt, m, bytes, ones, twos)?;
    show::pack(rt, m, Planes { ones, twos }, out)
}

// The same for a row of m trits.
fn round_trip(rt: &impl Print, m: usize) -> io::Result<()> {
    if m > 16384 {
        return Ok(());
    }
    let b = (m + 4) / 5;
    let w = (m + 63) / 64;
    let mut bytes = [0u8; 3277];
    let mut ones = [5u64; 256];
    let mut twos = [6u64; 256];
    let mut out = [7u8; 3277];
    there_and_back(
        rt,
        m,
        &mut bytes[0..b],
        &mut ones[0..w],
        &mut twos[0..w],
        &mut out[0..b],
    )
}

// Byte j is 7 j + 3 modulo 243.
fn fill(bytes: &mut [u8])
    ensures { bytes.new ≡ tabulate (λ j. (7 * j + 3) % 243) (length bytes.old) }
{
    let mut x: u8 = 3;
    for byte in bytes.iter_mut() {
        *byte = x;
        x = next(x);
    }
}

// The last byte, if there is one, is 1: its first trit alone is not 0.
fn end_in_one(bytes: &mut [u8])
    ensures { bytes.new ≡ set bytes.old (length bytes.old - 1) 1 }
{
    let count = bytes.len();
    if count > 0 {
        bytes[count - 1] = 1;
    }
}

// Seven more, modulo 243.
fn next(x: u8) -> u8
    requires { x < 243 }
    ensures { result ≡ (x + 7) % 243 }
{
    if x < 236 { x + 7 } else { x - 236 }
}

// A row in these planes is packed into these bytes.
fn pack_words(
    rt: &impl Print,
    m: usize,
    ones: &[u64],
    twos: &[u64],
    bytes: &mut [u8],
) -> io::Result<()> {
    show::pack(rt, m, Planes { ones, twos }, bytes)
}

// One word of each plane is packed into one byte.
fn pack_word(rt: &impl Print, m: usize, one: u64, two: u64) -> io::Result<()> {
    pack_words(rt, m, &[one], &[two], &mut [9])
}

// One byte is unpacked into one word of each plane.
fn unpack_byte(rt: &impl Print, m: usize, byte: u8) -> io::Result<()> {
    show::unpack(rt, m, &[byte], &mut [9], &mut [9])
}

// Bytes of a stream are read into one word of each plane.
fn stream_word(rt: &impl Print, m: usize, bytes: &[u8]) -> io::Result<()> {
    show::stream(rt, m, bytes, &mut [9], &mut [9])
}

// The rule at its edges: the paper's bytes, and the last byte.
fn pack_edges(rt: &impl Print) -> io::Result<()> {
    pack_word(rt, 5, 17, 2)?;
    pack_word(rt, 5, 0, 31)?;
    pack_word(rt, 4, 0, 15)?;
    pack_words(rt, 6, &[0], &[63], &mut [9, 9])?;
    pack_word(rt, 1, 0, 1)
}

// The same, read back.
fn unpack_edges(rt: &impl Print) -> io::Result<()> {
    unpack_byte(rt, 5, 88)?;
    unpack_byte(rt, 5, 242)?;
    unpack_byte(rt, 2, 8)?;
    unpack_byte(rt, 1, 2)
}

// What pack refuses: sizes and each length.
fn pack_lengths(rt: &impl Print) -> io::Result<()> {
    pack_word(rt, 16385, 0, 0)?;
    pack_words(rt, 5, &[0, 0], &[0], &mut [9])?;
    pack_words(rt, 5, &[0], &[0, 0], &mut [9])?;
    pack_words(rt, 5, &[0], &[0], &mut [9, 9])?;
    pack_word(rt, 6, 0, 0)?;
    pack_words(rt, 65, &[0], &[0, 0], &mut [9; 13])
}

// And a bit in both planes, a bit past the length, and which comes first.
fn pack_contents(rt: &impl Print) -> io::Result<()> {
    pack_word(rt, 5, 4, 6)?;
    pack_word(rt, 5, 32, 0)?;
    pack_word(rt, 5, 0, 9223372036854775808)?;
    pack_word(rt, 5, 32, 32)?;
    pack_word(rt, 5, 33, 1)
}

// What unpack refuses: sizes and each length.
fn unpack_lengths(rt: &impl Print) -> io::Result<()> {
    unpack_byte(rt, 16385, 0)?;
    unpack_byte(rt, 6, 0)?;
    show::unpack(rt, 5, &[0, 0], &mut [9], &mut [9])?;
    show::unpack(rt, 5, &[0], &mut [9, 9], &mut [9])?;
    show::unpack(rt, 5, &[0], &mut [9], &mut [9, 9])
}

// And a byte above 242, a trit past the length, and which comes first.
fn unpack_contents(rt: &impl Print) -> io::Result<()> {
    unpack_byte(rt, 5, 243)?;
    show::unpack(rt, 6, &[0, 255], &mut [9], &mut [9])?;
    unpack_byte(rt, 1, 243)?;
    unpack_byte(rt, 2, 242)?;
    unpack_byte(rt, 1, 241)?;
    show::unpack(rt, 6, &[0, 3], &mut [9], &mut [9])?;
    show::unpack(rt, 6, &[243, 3], &mut [9], &mut [9])
}

// Every last byte, at every number of trits in it: alone, and after another byte.
fn last_bytes(rt: &impl Print) -> io::Result<()> {
    for m in 1..=10 {
        show::last_bytes(rt, m)?;
    }
    Ok(())
}

// Streams: skipped bytes, a last byte that gives less, whatever its other trits are, bytes that are not looked at.
fn streams(rt: &impl Print) -> io::Result<()> {
    stream_word(rt, 9, &[255, 88, 243, 242, 7])?;
    stream_word(rt, 10, &[88, 244, 242])?;
    stream_word(rt, 6, &[1, 1, 255])?;
    stream_word(rt, 5, &[243, 250, 80])?;
    stream_word(rt, 1, &[2])?;
    stream_word(rt, 1, &[242])
}

// Streams that end too soon.
fn short_streams(rt: &impl Print) -> io::Result<()> {
    stream_word(rt, 6, &[1, 243])?;
    stream_word(rt, 1, &[243, 255])?;
    stream_word(rt, 11, &[1, 2])
}

// And sizes and each length.
fn stream_lengths(rt: &impl Print) -> io::Result<()> {
    stream_word(rt, 16385, &[1])?;
    show::stream(rt, 5, &[1], &mut [9, 9], &mut [9])?;
    show::stream(rt, 5, &[1], &mut [9], &mut [9, 9])?;
    stream_word(rt, 65, &[1])
}

fn main(rt: HostRuntime) -> io::Result<()> {
    println!(rt;
        "what the packing calls answer and leave; expected by tests/packing_cases.py, from the paper's rules on lists of trits"
    )?;
    pack_edges(&rt)?;
    unpack_edges(&rt)?;
    pack_lengths(&rt)?;
    pack_contents(&rt)?;
    unpack_lengths(&rt)?;
    unpack_contents(&rt)?;
    last_bytes(&rt)?;
    streams(&rt)?;
    short_streams(&rt)?;
    stream_lengths(&rt)?;
    for m in [0, 1, 4, 5, 6, 63, 64, 65, 16384] {
        round_trip(&rt, m)?;
    }
    Ok(())
}
