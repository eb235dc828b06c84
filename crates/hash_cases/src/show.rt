// A call, and a line that says what it made.
use std::io;
use trits::Planes;

// Bytes in hex, a blank before them and the line's end after them.
fn hex(rt: &impl Print, bytes: &[u8]) -> io::Result<()> {
    print!(rt; " ")?;
    for b in bytes {
        print!(rt; "{b:02x}")?;
    }
    println!(rt; "")
}

// A message by its name, and 64 bytes of its output.
pub fn named(rt: &impl Print, name: &str, message: &[u8]) -> io::Result<()> {
    let mut output = [0u8; 64];
    shake::shake256(message, &mut output);
    print!(rt; "{name}")?;
    hex(rt, &output)
}

// A message by its length, and 32 bytes of its output.
pub fn made(rt: &impl Print, message: &[u8]) -> io::Result<()> {
    let mut output = [0u8; 32];
    shake::shake256(message, &mut output);
    print!(rt; "{}", message.len())?;
    hex(rt, &output)
}

// The last 8 bytes, or all, of the output that fills the bytes lent.
fn output_in(rt: &impl Print, output: &mut [u8]) -> io::Result<()> {
    shake::shake256(&[163; 100], output);
    let n = output.len();
    print!(rt; "out {n}")?;
    hex(rt, &output[n.saturating_sub(8)..])
}

// The same for n bytes of output, up to 600.
pub fn output(rt: &impl Print, n: usize) -> io::Result<()> {
    if n > 600 {
        return Ok(());
    }
    let mut output = [0u8; 600];
    output_in(rt, &mut output[0..n])
}

// A row of m trits in digits, a blank before them and the line's end after them.
fn digits(rt: &impl Print, m: usize, row: Planes) -> io::Result<()> {
    print!(rt; " ")?;
    for i in 0..m {
        if i / 64 >= row.ones.len() || row.ones.len() != row.twos.len() {
            return Ok(());
        }
        print!(rt; "{}", planes::places::trit_at(row, i))?;
    }
    println!(rt; "")
}

// The syndrome of m trits of a text and a salt of bytes 90, in the planes that are lent.
fn syndrome_in(
    rt: &impl Print,
    m: usize,
    text: &[u8],
    ones: &mut [u64],
    twos: &mut [u64],
) -> io::Result<()> {
    let _ = syndrome::syndrome(m, &[90; 32], text, ones, twos);
    print!(rt; "y {m}")?;
    digits(rt, m, Planes { ones, twos })
}

// The same, m up to 1,000.
pub fn syndrome(rt: &impl Print, m: usize, text: &[u8]) -> io::Result<()> {
    if m > 1000 {
        return Ok(());
    }
    let words = (m + 63) / 64;
    let mut ones = [5u64; 16];
    let mut twos = [6u64; 16];
    syndrome_in(rt, m, text, &mut ones[0..words], &mut twos[0..words])
}
