// The module's half for C: each call in numbers. Nothing but what a host needs is exported.
// Planes come as separate slices, and refusals as numbers, since that is the C interface.
#![tactic(auto)]

ghost use Rattle.std.specs.Prelude.{◌≡◌, length};
ghost use Rattle.packed.specs.Calls.{pack_of, pack_refusal, pack_exit, unpack_of, unpack_refusal, unpack_ones, unpack_twos};
ghost use Rattle.packed.specs.Calls.{stream_of, stream_refusal, stream_ones, stream_twos};
ghost use Rattle.held_key.specs.Store.{refusal_of, held_after, begin_refusal, begin_held, packed_store_of};
ghost use Rattle.held_key.specs.Store.{store_packed_refusal, store_packed_held, store_packed_ones, store_packed_twos};
ghost use Rattle.check_tests.specs.Check.{packed_check_of, check_packed_answer, check_packed_work_ones, check_packed_work_twos};
ghost use Rattle.shake.specs.Shake.{shake256};
ghost use Rattle.syndrome.specs.Syndrome.{syndrome_of, syndrome_refusal, syndrome_ones, syndrome_twos};
ghost use Rattle.check_text.specs.TextCheck.{text_check_of, check_text_answer, check_text_work_ones, check_text_work_twos};

use check_tests::Checked;
use held_key::state::Held;
use trits::Planes;
use trits::refusal::Refusal;

// A beginning or a row in numbers.
#[repr(C)]
#[derive(Clone, Copy)]
pub struct StoredNumbers {
    pub refusal: u64, // its number, or 0
    pub held: Held, // the state after the call
}

// The numbers of an answer, and the state after it: the host's own where it was refused.
fn stored(held: Held, answer: Result<Held, Refusal>) -> StoredNumbers
    ensures refusal_value { result.refusal ≡ refusal_of answer }
    ensures held_value { result.held ≡ held_after held answer }
{
    match answer {
        Ok(after) => StoredNumbers {
            refusal: 0,
            held: after,
        },
        Err(refusal) => StoredNumbers {
            refusal: u64::from(refusal),
            held,
        },
    }
}

// `begin` for C.
#[unsafe(no_mangle)]
pub extern "C" fn wave_begin(held: Held, number: u64, n: u64, k: u64, w: u64) -> StoredNumbers
    ensures refusal_value { result.refusal ≡ begin_refusal number n k w }
    ensures held_value { result.held ≡ begin_held held number n k w }
{
    stored(held, held_key::begin(held, number, n, k, w))
}

// `store_packed_row` for C.
#[unsafe(no_mangle)]
pub extern "C" fn wave_store_row(
    held: Held,
    ones: &mut [u64],
    twos: &mut [u64],
    row: &[u8],
) -> StoredNumbers
    ensures { let c = packed_store_of held ones.old twos.old row.now in
        (result.refusal ≡ store_packed_refusal c) × (result.held ≡ store_packed_held c)
        × (ones.new ≡ store_packed_ones c) × (twos.new ≡ store_packed_twos c) }
{
    stored(held, held_key::store_packed_row(held, ones, twos, row))
}

// `check_packed` for C.
#[unsafe(no_mangle)]
pub extern "C" fn wave_check(
    held: Held,
    number: u64,
    ones: &[u64],
    twos: &[u64],
    y: &[u8],
    s: &[u8],
    work_ones: &mut [u64],
    work_twos: &mut [u64],
) -> Checked
    ensures { let c = packed_check_of held number ones.now twos.now y.now s.now
        work_ones.old work_twos.old in
        (result ≡ check_packed_answer c) × (work_ones.new ≡ check_packed_work_ones c) × (work_twos.new ≡ check_packed_work_twos c) }
{
    let key = Planes { ones, twos };
    Checked::from(checker::check_packed(held, number, key, y, s, work_ones, work_twos))
}

// `check_text` for C.
#[unsafe(no_mangle)]
pub extern "C" fn wave_check_text(
    held: Held,
    number: u64,
    ones: &[u64],
    twos: &[u64],
    salt: &[u8],
    text: &[u8],
    s: &[u8],
    work_ones: &mut [u64],
    work_twos: &mut [u64],
) -> Checked
    ensures { let c = text_check_of held number ones.now twos.now salt.now text.now s.now
        work_ones.old work_twos.old in
        (result ≡ check_text_answer c) × (work_ones.new ≡ check_text_work_ones c) × (work_twos.new ≡ check_text_work_twos c) }
{
    let key = Planes { ones, twos };
    Checked::from(check_text::check_text(held, number, key, salt, text, s, work_ones, work_twos))
}

// `syndrome` for C.
#[unsafe(no_mangle)]
pub extern "C" fn wave_syndrome(
    m: usize,
    salt: &[u8],
    text: &[u8],
    ones: &mut [u64],
    twos: &mut [u64],
) -> u64
    ensures { let c = syndrome_of m salt.now text.now ones.old twos.old in
        (result ≡ syndrome_refusal c) × (ones.new ≡ syndrome_ones c) × (twos.new ≡ syndrome_twos c) }
{
    trits::refusal::code(syndrome::syndrome(m, salt, text, ones, twos))
}

// `shake256` for C.
#[unsafe(no_mangle)]
pub extern "C" fn wave_shake256(message: &[u8], output: &mut [u8])
    ensures { output.new ≡ shake256 message.now (length output.old) }
{
    shake::shake256(message, output);
}

// `pack` for C.
#[unsafe(no_mangle)]
pub extern "C" fn wave_pack(m: usize, ones: &[u64], twos: &[u64], bytes: &mut [u8]) -> u64
    ensures { let c = pack_of m ones.now twos.now bytes.old in
        (result ≡ pack_refusal c) × (bytes.new ≡ pack_exit c) }
{
    trits::refusal::code(packing::pack(m, Planes { ones, twos }, bytes))
}

// `unpack` for C.
#[unsafe(no_mangle)]
pub extern "C" fn wave_unpack(m: usize, bytes: &[u8], ones: &mut [u64], twos: &mut [u64]) -> u64
    ensures { let c = unpack_of m bytes.now ones.old twos.old in
        (result ≡ unpack_refusal c) × (ones.new ≡ unpack_ones c) × (twos.new ≡ unpack_twos c) }
{
    trits::refusal::code(packing::unpack(m, bytes, ones, twos))
}

// `from_stream` for C.
#[unsafe(no_mangle)]
pub extern "C" fn wave_from_stream(
    m: usize,
    bytes: &[u8],
    ones: &mut [u64],
    twos: &mut [u64],
) -> u64
    ensures { let c = stream_of m bytes.now ones.old twos.old in
        (result ≡ stream_refusal c) × (ones.new ≡ stream_ones c) × (twos.new ≡ stream_twos c) }
{
    trits::refusal::code(packing::from_stream(m, bytes, ones, twos))
}
