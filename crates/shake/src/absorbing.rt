// A message taken in.
ghost use Rattle.std.specs.Prelude.{◌≡◌, ◌++◌};
ghost use Rattle.keccak.specs.Lanes.{lanes_of};
ghost use Rattle.shake.specs.Shake.{rate, absorbed, blocks_of};
ghost use Rattle.shake.specs.Steps.{ForMessage, ForBlock, absorbed_block};

// A block of the padded message, written out, comes to the state.
fn absorb_written(a: [[u64; 5]; 5], first: &[u8], last: &[u8], start: usize) -> [[u64; 5]; 5]
    requires { ForBlock first.now last.now start rate }
    ensures { result ≡ absorbed_block (first.now ++ last.now) start a }
{
    let mut block = [0u8; 136];
    super::padding::fill(first, last, start, &mut block);
    keccak::permute(super::block::add_block(a, &block))
}

// The block of the padded message from place `start` on comes to the state: read where it lies, if all of it is in the last part.
fn absorb_block(a: [[u64; 5]; 5], first: &[u8], last: &[u8], start: usize) -> [[u64; 5]; 5]
    requires { ForBlock first.now last.now start rate }
    ensures { result ≡ absorbed_block (first.now ++ last.now) start a }
{
    if start < first.len() {
        return absorb_written(a, first, last, start);
    }
    let at = start - first.len();
    let end = at + 136;
    if last.len() < end {
        return absorb_written(a, first, last, start);
    }
    keccak::permute(super::block::add_block(a, &last[at..end]))
}

// The state after all blocks of the padded message.
pub fn absorb(first: &[u8], last: &[u8]) -> [[u64; 5]; 5]
    requires { ForMessage first.now last.now }
    ensures { result ≡ lanes_of (absorbed (first.now ++ last.now) (blocks_of (first.now ++ last.now))) }
{
    let blocks = (first.len() + last.len()) / 136 + 1;
    let mut a = [[0u64; 5]; 5];
    for j in 0..blocks {
        let next = absorb_block(a, first, last, 136 * j); // an array that a call makes gets a name before it is stored
        a = next;
    }
    a
}
