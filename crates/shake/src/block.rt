// A block added to a state. Five lanes and five sheets are written out, as in the steps of a round and for the same reason.
ghost use Rattle.std.specs.Prelude.{◌≡◌, ℕ, ◌+◌, ◌*◌, ◌≤◌, ◌<◌, length, get_or};
ghost use Rattle.keccak.specs.Lanes.{lane_at, sheet_of, lanes_of};
ghost use Rattle.shake.specs.Shake.{rate, word_of, added};

// Eight bytes from place p on as a number, the first lowest.
fn word(bytes: &[u8], p: usize) -> u64
    requires { p + 8 ≤ length bytes.now }
    ensures { result ≡ word_of (λ (i : ℕ). get_or bytes.now i 0) p }
{
    u64::from_le_bytes([
        bytes[p],
        bytes[p + 1],
        bytes[p + 2],
        bytes[p + 3],
        bytes[p + 4],
        bytes[p + 5],
        bytes[p + 6],
        bytes[p + 7],
    ])
}

// Lane (x, y) after the block.
fn add_lane(a: [[u64; 5]; 5], block: &[u8], x: usize, y: usize) -> u64
    requires { (x < 5) × (y < 5) × (length block.now ≡ rate) }
    ensures { result ≡ added (λ (i : ℕ). get_or block.now i 0) (lane_at a) x y }
{
    let p = 8 * (5 * y + x);
    if p < 136 {
        a[x][y] ^ word(block, p)
    } else {
        a[x][y]
    }
}

// The lanes at x after the block.
fn add_sheet(a: [[u64; 5]; 5], block: &[u8], x: usize) -> [u64; 5]
    requires { (x < 5) × (length block.now ≡ rate) }
    ensures { result ≡ sheet_of (added (λ (i : ℕ). get_or block.now i 0) (lane_at a)) x }
{
    [
        add_lane(a, block, x, 0),
        add_lane(a, block, x, 1),
        add_lane(a, block, x, 2),
        add_lane(a, block, x, 3),
        add_lane(a, block, x, 4),
    ]
}

// A block of 136 bytes is added to the first 17 lanes.
pub fn add_block(a: [[u64; 5]; 5], block: &[u8]) -> [[u64; 5]; 5]
    requires { length block.now ≡ rate }
    ensures { result ≡ lanes_of (added (λ (i : ℕ). get_or block.now i 0) (lane_at a)) }
{
    [
        add_sheet(a, block, 0),
        add_sheet(a, block, 1),
        add_sheet(a, block, 2),
        add_sheet(a, block, 3),
        add_sheet(a, block, 4),
    ]
}
