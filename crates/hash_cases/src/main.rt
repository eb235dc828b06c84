// Runs SHAKE256 on published and on made messages, and the syndrome call on salts and texts, and prints what they make.
#![tactic(auto)]

mod show; // what is printed

ghost use Rattle.std.specs.Prelude.{◌≡◌, ◌+◌, ◌*◌, ◌%◌, length};
ghost use Rattle.trits.specs.Planes.{tabulate};

use std::io;

// A made message: byte i is 7 i and the length, modulo 256.
fn fill(message: &mut [u8])
    ensures { message.new ≡ tabulate (λ i. (7 * i + length message.old) % 256) (length message.old) }
{
    let mut x = message.len() % 256;
    for byte in message.iter_mut() {
        *byte = x as u8;
        x = (x + 7) % 256;
    }
}

// The messages that the standard's authors published values of, and another that is well known.
fn published(rt: &impl Print) -> io::Result<()> {
    show::named(rt, "empty", b"")?;
    show::named(rt, "abc", b"abc")?;
    show::named(rt, "a3x200", &[163; 200])
}

// The made message in the bytes that are lent.
fn made_in(rt: &impl Print, message: &mut [u8]) -> io::Result<()> {
    fill(message);
    show::made(rt, message)
}

// The made message of so many bytes, up to 1,000.
fn made(rt: &impl Print, length: usize) -> io::Result<()> {
    if length > 1000 {
        return Ok(());
    }
    let mut message = [0u8; 1000];
    made_in(rt, &mut message[0..length])
}

// The syndrome of m trits of the made message in the bytes that are lent.
fn syndrome_in(rt: &impl Print, m: usize, text: &mut [u8]) -> io::Result<()> {
    fill(text);
    show::syndrome(rt, m, text)
}

// The syndrome of m trits, up to 1,000, of a salt and the made message of m bytes.
fn syndrome(rt: &impl Print, m: usize) -> io::Result<()> {
    if m > 1000 {
        return Ok(());
    }
    let mut text = [0u8; 1000];
    syndrome_in(rt, m, &mut text[0..m])
}

// Outputs of one message, up to the edges of blocks and past them.
fn outputs(rt: &impl Print) -> io::Result<()> {
    for n in [
        1, 8, 31, 32, 33, 64, 135, 136, 137, 200, 271, 272, 273, 300, 408, 409, 544, 545, 600,
    ] {
        show::output(rt, n)?;
    }
    Ok(())
}

// Syndromes of none, of few trits, at the edges of words and of blocks.
fn syndromes(rt: &impl Print) -> io::Result<()> {
    for m in [
        0, 1, 4, 5, 6, 63, 64, 65, 128, 200, 639, 640, 641, 700, 1000,
    ] {
        syndrome(rt, m)?;
    }
    Ok(())
}

fn main(rt: HostRuntime) -> io::Result<()> {
    println!(rt;
        "what SHAKE256 and the syndrome call make; expected by tests/hash_cases.py, from Python's hashlib"
    )?;
    published(&rt)?;
    for length in (0..421).chain(539..549).chain(1000..1001) {
        made(&rt, length)?;
    }
    outputs(&rt)?;
    syndromes(&rt)
}
