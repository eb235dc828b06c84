// The bytes of the padded message.
ghost use Rattle.std.specs.Prelude.{◌≡◌, ◌++◌, length};
ghost use Rattle.shake.specs.Shake.{padded_byte};
ghost use Rattle.shake.specs.Steps.{ForPad, ForPlace, ForBlock, pad_of, block_from};

// What the padding puts at place i of a message of so many bytes.
fn pad(size: usize, i: usize) -> u8
    requires { ForPad size i }
    ensures { result ≡ pad_of size i }
{
    match (i == size, i + 1 == 136 * (size / 136 + 1)) {
        (true, true) => 31 + 128,
        (true, false) => 31, // the suffix 1111 and a 1
        (false, true) => 128,
        (false, false) => 0,
    }
}

// Byte i of the padded message.
fn padded_byte(first: &[u8], last: &[u8], i: usize) -> u8
    requires { ForPlace first.now last.now i }
    ensures { result ≡ padded_byte (first.now ++ last.now) i }
{
    if i < first.len() {
        return first[i];
    }
    let at = i - first.len();
    if at < last.len() {
        return last[at];
    }
    pad(first.len() + last.len(), i)
}

// The bytes of the padded message from place `start` on, as many as are lent.
pub fn fill(first: &[u8], last: &[u8], start: usize, block: &mut [u8])
    requires { ForBlock first.now last.now start (length block.old) }
    ensures { block.new ≡ block_from (first.now ++ last.now) start (length block.old) }
{
    for (i, byte) in block.iter_mut().enumerate() {
        *byte = padded_byte(first, last, start + i);
    }
}
