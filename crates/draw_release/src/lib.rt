// The release of a drawn word: from rows of a grid to the word and its signature.
// What is written stays two slices: of a slice the length and the ranges of words are known with no clause, of one in a struct they are not.
#![tactic(auto)]

ghost use Rattle.std.specs.Prelude.{◌≡◌, ◌+◌};
ghost use Rattle.trits.specs.Trit.{up_to};
ghost use Rattle.trits.specs.Planes.{words_for, ones_of, twos_of};
ghost use Rattle.trits.specs.Rows.{matrix_at};
ghost use Rattle.scheme.specs.Sizes.{half, places, dim, codim};
ghost use Rattle.draw_pairs.specs.Steps.{written_from};
ghost use Rattle.calls.specs.Lent.{half_words};
ghost use Rattle.draw_release.specs.Steps.{ForReleaseWord};

use draw_pairs::places::write_places;
use scheme::sizes::FittingSizes;
use trits::Planes;

// The word is written in public places, and its last k trits as the signature.
pub fn release_word(
    z: FittingSizes,
    l: usize,
    p: &[u16],
    work: Planes,
    word_ones: &mut [u64],
    word_twos: &mut [u64],
    s_ones: &mut [u64],
    s_twos: &mut [u64],
)
    requires { ForReleaseWord z.sizes l p.now work.ones.now work.twos.now word_ones.old word_twos.old s_ones.old s_twos.old }
    ensures { let A = matrix_at (half_words z.sizes) work.entry.ones.now work.entry.twos.now in
        let word = written_from (half z.sizes) (A (l + 4)) (A (l + 3)) p.now in
        let n = places z.sizes in
        let k = dim z.sizes in
        (word_ones.new ≡ ones_of (up_to n (word 0)) (words_for n)) × (word_twos.new ≡ twos_of (up_to n (word 0)) (words_for n))
        × (s_ones.new ≡ ones_of (up_to k (word (codim z.sizes))) (words_for k))
        × (s_twos.new ≡ twos_of (up_to k (word (codim z.sizes))) (words_for k)) }
{
    let s = z.shape();
    let rows = l + 5;
    let u = l + 4;
    let v = l + 3;
    let n = s.half + s.half;
    let k = z.sizes.ku as usize + z.sizes.kv as usize;
    let first = s.ru + s.rv;
    write_places(
        work, rows, s.words, u, v, s.half, p, 0, n, word_ones, word_twos,
    );
    write_places(
        work, rows, s.words, u, v, s.half, p, first, k, s_ones, s_twos,
    );
}
