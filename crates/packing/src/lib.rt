// Trits packed five to a byte, and trits of a byte stream: the calls.
// A row that is written stays two slices: it is a stretch of each plane, and of a slice the length and the ranges of words are known with no clause.
#![tactic(auto)]

pub mod table; // the five trits of each byte
pub mod faults; // the tests for 5, 15 and 6
pub mod read; // bytes made from a row

ghost use Rattle.std.specs.Prelude.{◌≡◌};
ghost use Rattle.trits.specs.Refusal.{code_of};
ghost use Rattle.packed.specs.Calls.{pack_of, pack_refusal, pack_exit, unpack_of, unpack_refusal, unpack_ones, unpack_twos};
ghost use Rattle.packed.specs.Calls.{stream_of, stream_refusal, stream_ones, stream_twos};

use trits::Planes;
use trits::refusal::Refusal;

// A row of m trits is packed into bytes.
pub fn pack(m: usize, row: Planes, bytes: &mut [u8]) -> Result<(), Refusal>
    ensures { let c = pack_of m row.entry.ones.now row.entry.twos.now bytes.old in
        (code_of result ≡ pack_refusal c) × (bytes.new ≡ pack_exit c) }
{
    let Planes { ones, twos } = row;
    if m > 16384 {
        return Err(Refusal::Size);
    }
    let words = (m + 63) / 64;
    if ones.len() != words || twos.len() != words || bytes.len() != (m + 4) / 5 {
        return Err(Refusal::Length);
    }
    planes::faults::test_planes(row, 1, m)?;
    read::read_bytes(m, row, bytes);
    Ok(())
}

// Bytes are unpacked into a row of m trits.
pub fn unpack(m: usize, bytes: &[u8], ones: &mut [u64], twos: &mut [u64]) -> Result<(), Refusal>
    ensures { let c = unpack_of m bytes.now ones.old twos.old in
        (code_of result ≡ unpack_refusal c) × (ones.new ≡ unpack_ones c) × (twos.new ≡ unpack_twos c) }
{
    // all tests of the bytes come before the planes are written
    if m > 16384 {
        return Err(Refusal::Size);
    }
    let words = (m + 63) / 64;
    if bytes.len() != (m + 4) / 5 || ones.len() != words || twos.len() != words {
        return Err(Refusal::Length);
    }
    faults::test_bytes(m, bytes)?;
    placing::packed_row::write_packed(m, bytes, ones, twos);
    Ok(())
}

// A stream of bytes becomes a row of m trits.
pub fn from_stream(
    m: usize,
    bytes: &[u8],
    ones: &mut [u64],
    twos: &mut [u64],
) -> Result<(), Refusal>
    ensures { let c = stream_of m bytes.now ones.old twos.old in
        (code_of result ≡ stream_refusal c) × (ones.new ≡ stream_ones c) × (twos.new ≡ stream_twos c) }
{
    // all tests of the stream come before the planes are written
    if m > 16384 {
        return Err(Refusal::Size);
    }
    let words = (m + 63) / 64;
    if ones.len() != words || twos.len() != words {
        return Err(Refusal::Length);
    }
    if faults::too_short(m, bytes) {
        return Err(Refusal::StreamEnd);
    }
    placing::stream::write_stream(m, bytes, ones, twos);
    Ok(())
}
