// The build of a key: the call, and its tests.
// What is written stays two slices: of a slice the length and the ranges of words are known with no clause, of one in a struct they are not.
#![tactic(auto)]

pub mod tests; // lengths and contents
pub mod finish; // ranks, key, working space

ghost use Rattle.std.specs.Prelude.{◌≡◌};
ghost use Rattle.trits.specs.Planes.{pair_of};
ghost use Rattle.trits.specs.Refusal.{code_of};
ghost use Rattle.calls.specs.Lent.{planes_of};
ghost use Rattle.calls.specs.BuildCall.{build_call, build_answer, order_exit, key_exit, build_work_exit};

use calls::lent::SecretPlanes;
use scheme::sizes::{FittingSizes, Sizes};
use trits::Planes;
use trits::refusal::Refusal;

// A key is built from a secret and a starting order.
pub fn build(
    z: Sizes,
    secret: SecretPlanes,
    start: &[u16],
    p: &mut [u16],
    key_ones: &mut [u64],
    key_twos: &mut [u64],
    work_ones: &mut [u64],
    work_twos: &mut [u64],
) -> Result<(), Refusal>
    ensures { let i = build_call (planes_of secret.entry) start.now p.old key_ones.old key_twos.old work_ones.old work_twos.old in
        (code_of result ≡ build_answer z i) × (p.new ≡ order_exit z i) × (pair_of key_ones.new key_twos.new ≡ key_exit z i)
        × (pair_of work_ones.new work_twos.new ≡ build_work_exit z i) }
{
    let z = FittingSizes::try_from(z)?;
    let key = Planes {
        ones: key_ones,
        twos: key_twos,
    };
    let work = Planes {
        ones: work_ones,
        twos: work_twos,
    };
    if tests::lent_lengths_differ(z, secret, start, p, key, work) {
        return Err(Refusal::Length);
    }
    tests::test_contents(z, secret, start)?;
    finish::finish(
        z, secret, start, p, key_ones, key_twos, work_ones, work_twos,
    )
}
