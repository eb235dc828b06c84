// The permutation Keccak-p[1600, 24] on five arrays of five lanes.
#![tactic(auto)]

pub mod tables; // the round constants and the offsets
pub mod steps; // the five steps of a round

ghost use Rattle.std.specs.Prelude.{◌≡◌};
ghost use Rattle.keccak.specs.Keccak.{round, permuted};
ghost use Rattle.keccak.specs.Lanes.{lane_at, lanes_of};

// One round, with its constant.
fn round(a: [[u64; 5]; 5], constant: u64) -> [[u64; 5]; 5]
    ensures { result ≡ lanes_of (round constant (lane_at a)) }
{
    let mixed = steps::theta(a);
    let rotated = steps::rho(mixed);
    let moved = steps::pi(rotated);
    let chosen = steps::chi(moved);
    steps::iota(chosen, constant)
}

// The 24 rounds.
pub fn permute(a: [[u64; 5]; 5]) -> [[u64; 5]; 5]
    ensures { result ≡ lanes_of (permuted (lane_at a)) }
{
    let constants = tables::round_constants();
    let mut b = a;
    for constant in &constants {
        let next = round(b, *constant); // an array that a call makes gets a name before it is stored
        b = next;
    }
    b
}
