// A call, and a line that says what it answered and what its outputs are then.
ghost use Rattle.std.specs.Prelude.{◌≡◌};
ghost use Rattle.packed.specs.Calls.{pack_of, pack_exit, unpack_of, unpack_ones, unpack_twos, stream_of, stream_ones, stream_twos};

use std::fmt::Display;
use std::io;
use trits::Planes;
use trits::refusal::code;

// Numbers, a blank before each.
fn numbers<T: Display>(rt: &impl Print, items: &[T]) -> io::Result<()> {
    for x in items {
        print!(rt; " {x}")?;
    }
    Ok(())
}

// The planes of a row, and the line's end.
fn planes(rt: &impl Print, row: Planes) -> io::Result<()> {
    print!(rt; ", ones")?;
    numbers(rt, row.ones)?;
    print!(rt; ", twos")?;
    numbers(rt, row.twos)?;
    println!(rt; "")
}

pub fn pack(rt: &impl Print, m: usize, row: Planes, bytes: &mut [u8]) -> io::Result<()>
    ensures { let c = pack_of m row.entry.ones.now row.entry.twos.now bytes.old in
        (bytes.new ≡ pack_exit c) }
{
    let answer = code(packing::pack(m, row, bytes));
    print!(rt; "pack {m} answers {answer}, bytes")?;
    numbers(rt, bytes)?;
    println!(rt; "")
}

pub fn unpack(
    rt: &impl Print,
    m: usize,
    bytes: &[u8],
    ones: &mut [u64],
    twos: &mut [u64],
) -> io::Result<()>
    ensures { let c = unpack_of m bytes.now ones.old twos.old in
        (ones.new ≡ unpack_ones c) × (twos.new ≡ unpack_twos c) }
{
    let answer = code(packing::unpack(m, bytes, ones, twos));
    print!(rt; "unpack {m} answers {answer}")?;
    planes(rt, Planes { ones, twos })
}

pub fn stream(
    rt: &impl Print,
    m: usize,
    bytes: &[u8],
    ones: &mut [u64],
    twos: &mut [u64],
) -> io::Result<()>
    ensures { let c = stream_of m bytes.now ones.old twos.old in
        (ones.new ≡ stream_ones c) × (twos.new ≡ stream_twos c) }
{
    let answer = code(packing::from_stream(m, bytes, ones, twos));
    print!(rt; "stream {m} answers {answer}")?;
    planes(rt, Planes { ones, twos })
}

// What unpack answers for bytes.
fn answer_to(rt: &impl Print, m: usize, bytes: &[u8]) -> io::Result<()> {
    let answer = code(packing::unpack(m, bytes, &mut [9], &mut [9]));
    print!(rt; " {answer}")
}

// What it answers for a row of one or two bytes by its last byte; the trits of a byte before it are all 2.
fn answer_to_last(rt: &impl Print, m: usize, last: u8) -> io::Result<()> {
    if m > 5 {
        answer_to(rt, m, &[242, last])
    } else {
        answer_to(rt, m, &[last])
    }
}

// What it answers for every last byte.
pub fn last_bytes(rt: &impl Print, m: usize) -> io::Result<()> {
    print!(rt; "unpack {m}, last byte 0 to 255, answers")?;
    for last in 0..=255 {
        answer_to_last(rt, m, last)?;
    }
    println!(rt; "")
}
