// Blocks of the output, taken from states.
ghost use Rattle.std.specs.Prelude.{◌≡◌, ◌<◌, length};
ghost use Rattle.keccak.specs.Keccak.{permuted};
ghost use Rattle.keccak.specs.Lanes.{lane_at, lanes_of};
ghost use Rattle.shake.specs.Shake.{rate, squeezed_bytes};
ghost use Rattle.shake.specs.Steps.{lane_bytes, state_bytes};
ghost use Rattle.shake.specs.Output.{output_of, Taken};

// The eight bytes of a lane, the lowest first.
fn put_lane(lane: u64, bytes: &mut [u8])
    requires { length bytes.old ≡ 8 }
    ensures { bytes.new ≡ lane_bytes lane }
{
    bytes.copy_from_slice(&lane.to_le_bytes());
}

// The bytes of a state that come out: those of its first 17 lanes.
pub fn block_of(a: [[u64; 5]; 5]) -> [u8; 136]
    ensures { result ≡ state_bytes a }
{
    let mut block = [0u8; 136];
    for j in 0..17 {
        put_lane(a[j % 5][j / 5], &mut block[8 * j..8 * j + 8]);
    }
    block
}

// The output of a state, byte by byte: the state that is read, its bytes that come out, and the place of the next among them.
#[derive(Clone, Copy)]
pub struct Output {
    pub state: [[u64; 5]; 5],
    pub block: [u8; 136],
    pub place: usize,
}

impl Output {
    // The output from a state on.
    pub fn of(a: [[u64; 5]; 5]) -> Output
        ensures { result ≡ output_of a }
    {
        Output {
            state: a,
            block: block_of(a),
            place: 0,
        }
    }

    // The output from the state that comes after a.
    fn after(a: [[u64; 5]; 5]) -> Output
        ensures { result ≡ output_of (lanes_of (permuted (lane_at a))) }
    {
        let next = keccak::permute(a);
        Output::of(next)
    }

    // The next byte; after the last of a block comes the first of the next.
    // A call for each byte takes half as long again: what is done for each stands in the caller's loop, and the next block is made apart.
    #[inline(always)]
    pub fn next(&mut self) -> u8
        requires { self.old.place < rate }
        ensures { Taken self.old result self.new }
    {
        let byte = self.block[self.place];
        self.place += 1;
        if self.place == 136 {
            *self = Output::after(self.state);
        }
        byte
    }
}

// The output from a state on, as many bytes as are lent.
pub fn squeeze(a: [[u64; 5]; 5], bytes: &mut [u8])
    ensures { bytes.new ≡ squeezed_bytes (lane_at a) (length bytes.old) }
{
    let mut output = Output::of(a);
    for byte in bytes.iter_mut() {
        *byte = output.next();
    }
}
