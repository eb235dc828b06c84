// One draw: the call.
// What is written stays two slices: of a slice the length and the ranges of words are known with no clause, of one in a struct they are not.
#![tactic(auto)]

ghost use Rattle.std.specs.Prelude.{◌≡◌};
ghost use Rattle.trits.specs.Planes.{pair_of};
ghost use Rattle.trits.specs.Refusal.{code_of};
ghost use Rattle.calls.specs.DrawCall.{draw_lent, draw_answer, word_exit, s_exit, draw_work_exit};

use calls::lent::{Choices, SecretPlanes};
use draw_tests::tests;
use scheme::sizes::{FittingSizes, Sizes};
use trits::Planes;
use trits::refusal::Refusal;

// A word is drawn under a secret and p, for the syndrome y, by the choices; it is released with its signature.
pub fn draw(
    z: Sizes,
    secret: SecretPlanes,
    p: &[u16],
    y: Planes,
    choices: Choices,
    word_ones: &mut [u64],
    word_twos: &mut [u64],
    s_ones: &mut [u64],
    s_twos: &mut [u64],
    work_ones: &mut [u64],
    work_twos: &mut [u64],
) -> Result<(), Refusal>
    ensures { let i = draw_lent secret.entry p.now y.entry choices.entry
        word_ones.old word_twos.old s_ones.old s_twos.old work_ones.old work_twos.old in
        (code_of result ≡ draw_answer z i) × (pair_of word_ones.new word_twos.new ≡ word_exit z i)
        × (pair_of s_ones.new s_twos.new ≡ s_exit z i)
        × (pair_of work_ones.new work_twos.new ≡ draw_work_exit z i) }
{
    let z = FittingSizes::try_from(z)?;
    let word = Planes {
        ones: word_ones,
        twos: word_twos,
    };
    let s = Planes {
        ones: s_ones,
        twos: s_twos,
    };
    let work = Planes {
        ones: work_ones,
        twos: work_twos,
    };
    if tests::lent_lengths_differ(z, secret, p, y, choices, word, s, work) {
        return Err(Refusal::Length);
    }
    tests::test_contents(z, secret, p, y, choices)?;
    draw_finish::finish(
        z, secret, p, y, choices, word_ones, word_twos, s_ones, s_twos, work_ones, work_twos,
    )
}
