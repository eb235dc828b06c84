// The round constants, and the offsets by which lanes are rotated.
ghost use Rattle.std.specs.Prelude.{◌≡◌, ◌<◌};
ghost use Rattle.keccak.specs.Keccak.{offset};
ghost use Rattle.keccak.specs.Steps.{constants_of};

// The constants of the 24 rounds, made once by who runs them.
pub fn round_constants() -> [u64; 24]
    ensures { result ≡ constants_of }
{
    CONSTANTS
}

// The offset of lane (x, y).
pub fn offset(x: usize, y: usize) -> u32
    requires { (x < 5) × (y < 5) }
    ensures { result ≡ offset x y }
{
    OFFSETS[x][y]
}

const CONSTANTS: [u64; 24] = [
    0x0000000000000001,
    0x0000000000008082,
    0x800000000000808a,
    0x8000000080008000,
    0x000000000000808b,
    0x0000000080000001,
    0x8000000080008081,
    0x8000000000008009,
    0x000000000000008a,
    0x0000000000000088,
    0x0000000080008009,
    0x000000008000000a,
    0x000000008000808b,
    0x800000000000008b,
    0x8000000000008089,
    0x8000000000008003,
    0x8000000000008002,
    0x8000000000000080,
    0x000000000000800a,
    0x800000008000000a,
    0x8000000080008081,
    0x8000000000008080,
    0x0000000080000001,
    0x8000000080008008,
];

const OFFSETS: [[u32; 5]; 5] = [
    [0, 36, 3, 41, 18],
    [1, 44, 10, 45, 2],
    [62, 6, 43, 15, 61],
    [28, 55, 25, 21, 56],
    [27, 20, 39, 8, 14],
];
