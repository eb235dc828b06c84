// The end of a draw whose tests have passed: the word is made and released, and the working space made 0.
// What is written stays two slices: of a slice the length and the ranges of words are known with no clause, of one in a struct they are not.
#![tactic(auto)]

ghost use Rattle.std.specs.Prelude.{◌≡◌, length};
ghost use Rattle.trits.specs.Trit.{up_to};
ghost use Rattle.trits.specs.Planes.{words_for, ones_of, twos_of, zero_words};
ghost use Rattle.trits.specs.Refusal.{code_of, at_exit};
ghost use Rattle.scheme.specs.Sizes.{places, dim};
ghost use Rattle.scheme.specs.Draw.{signature};
ghost use Rattle.calls.specs.DrawCall.{word_of};
ghost use Rattle.draw_tests.specs.Steps.{given_lent, ending};
ghost use Rattle.draw_finish.specs.Steps.{ForFinishDraw};

use calls::lent::{Choices, SecretPlanes};
use scheme::sizes::FittingSizes;
use trits::Planes;
use trits::refusal::Refusal;

// 12, 13, 14 or the word and its signature; the working space is 0 after each of them.
pub fn finish(
    z: FittingSizes,
    secret: SecretPlanes,
    p: &[u16],
    y: Planes,
    choices: Choices,
    word_ones: &mut [u64],
    word_twos: &mut [u64],
    s_ones: &mut [u64],
    s_twos: &mut [u64],
    work_ones: &mut [u64],
    work_twos: &mut [u64],
) -> Result<(), Refusal>
    requires { ForFinishDraw z.sizes (given_lent secret p.now y choices)
        word_ones.old word_twos.old s_ones.old s_twos.old work_ones.old work_twos.old }
    ensures { let i = given_lent secret.entry p.now y.entry choices.entry in
        let z = z.sizes in
        (code_of result ≡ ending z i)
        × (word_ones.new ≡ at_exit (ending z i) (ones_of (up_to (places z) (word_of z i)) (words_for (places z))) word_ones.old)
        × (word_twos.new ≡ at_exit (ending z i) (twos_of (up_to (places z) (word_of z i)) (words_for (places z))) word_twos.old)
        × (s_ones.new ≡ at_exit (ending z i) (ones_of (up_to (dim z) (signature z (word_of z i))) (words_for (dim z))) s_ones.old)
        × (s_twos.new ≡ at_exit (ending z i) (twos_of (up_to (dim z) (signature z (word_of z i))) (words_for (dim z))) s_twos.old)
        × (work_ones.new ≡ zero_words (length work_ones.old))
        × (work_twos.new ≡ zero_words (length work_twos.old)) }
{
    let s = z.shape();
    let l = s.ru.max(s.rv) + 243;
    let made = draw_word::word::make_word(z, l, secret, p, y, choices, work_ones, work_twos);
    if made.is_ok() {
        let work = Planes {
            ones: work_ones,
            twos: work_twos,
        };
        draw_release::release_word(z, l, p, work, word_ones, word_twos, s_ones, s_twos);
    }
    calls::work::clear(work_ones, work_twos);
    made
}
