// The word of a draw, made in the working space: the matrix and its tables below row l, then x_U, x_V, a row for products, e_V, e_U.
ghost use Rattle.std.specs.Prelude.{◌≡◌, ◌+◌, ◌*◌};
ghost use Rattle.trits.specs.Trit.{weight_v};
ghost use Rattle.trits.specs.Planes.{trit_at};
ghost use Rattle.trits.specs.Rows.{matrix_at};
ghost use Rattle.trits.specs.Refusal.{code_of};
ghost use Rattle.grid.specs.Steps.{Rows};
ghost use Rattle.calls.specs.Lent.{planes_of, half_words, secret_of};
ghost use Rattle.draw_tests.specs.Steps.{given_lent, ending};
ghost use Rattle.draw_word.specs.Steps.{pairs_of, choices_lent, start_word, Parted, SolvedHalves, Joined, MadeWhere, ForPartWord, ForSolveHalves};
ghost use Rattle.draw_word.specs.Steps.{ForJoinWord, ForMakeWord};
ghost use Rattle.scheme.specs.Draw.{ranks_refusal};

use calls::lent::{Choices, SecretPlanes};
use draw_half::halves::{draw_u, draw_v};
use draw_half::lent::{Half, HalfRows};
use draw_pairs::halves::{join_halves, part_halves};
use scheme::sizes::FittingSizes;
use trits::Planes;
use trits::refusal::Refusal;

// The syndrome is placed and parted into x_U and x_V, in a working space made 0.
pub fn part_word(
    z: FittingSizes,
    l: usize,
    b: Planes,
    c: Planes,
    p: &[u16],
    y: Planes,
    work_ones: &mut [u64],
    work_twos: &mut [u64],
)
    requires { ForPartWord z.sizes l b.ones.now b.twos.now c.ones.now c.twos.now p.now y.ones.now y.twos.now
        work_ones.old work_twos.old }
    ensures rows { Rows work_ones.new work_twos.new (l + 5) (half_words z.sizes) }
    ensures parted { Parted z.sizes l (pairs_of b.entry.ones.now b.entry.twos.now c.entry.ones.now c.entry.twos.now)
        (start_word z.sizes p.now (trit_at y.entry.ones.now y.entry.twos.now))
        (matrix_at (half_words z.sizes) work_ones.new work_twos.new) }
{
    let s = z.shape();
    let rows = l + 5;
    calls::work::clear(work_ones, work_twos);
    draw_pairs::places::place_syndrome(
        work_ones,
        work_twos,
        rows,
        s.words,
        l,
        s.half,
        p,
        s.ru + s.rv,
        y,
    );
    part_halves(work_ones, work_twos, rows, s.words, l, b, c);
}

// e_V and e_U are solved from x_V and x_U: 12 where the first part lacks rank in V, 13 where it does in U.
pub fn solve_halves(
    z: FittingSizes,
    l: usize,
    secret: SecretPlanes,
    choices: Choices,
    work_ones: &mut [u64],
    work_twos: &mut [u64],
) -> Result<(), Refusal>
    requires { ForSolveHalves z.sizes l (planes_of secret) choices work_ones.old work_twos.old }
    ensures { let s = secret_of z.sizes (planes_of secret.entry) in
        let ch = choices_lent choices.entry in
        let A = matrix_at (half_words z.sizes) work_ones.old work_twos.old in
        (code_of result ≡ ranks_refusal z.sizes s ch 0) × Rows work_ones.new work_twos.new (l + 5) (half_words z.sizes)
        × SolvedHalves (code_of result) z.sizes l s ch (A l) (A (l + 1)) (matrix_at (half_words z.sizes) work_ones.new work_twos.new) }
{
    let s = z.shape();
    let rows = l + 5;
    let t = l + 2;
    let v = l + 3;
    let half_v = Half {
        r: s.rv,
        h: secret.hv,
        order: choices.v_order,
        gap: z.sizes.gv as usize,
    };
    let rows_v = HalfRows { x: l + 1, t, e: v };
    if !draw_v(
        work_ones, work_twos, rows, s.words, half_v, choices.v, rows_v,
    ) {
        return Err(Refusal::FirstPartV);
    }
    let half_u = Half {
        r: s.ru,
        h: secret.hu,
        order: choices.u_order,
        gap: z.sizes.gu as usize,
    };
    let rows_u = HalfRows { x: l, t, e: l + 4 };
    let SecretPlanes { b, c, .. } = secret;
    if !draw_u(
        work_ones, work_twos, rows, s.words, half_u, b, c, choices.u, v, rows_u,
    ) {
        return Err(Refusal::FirstPartU);
    }
    Ok(())
}

// e_U and e_V become the halves of the word, and its weight is answered.
pub fn join_word(
    z: FittingSizes,
    l: usize,
    b: Planes,
    c: Planes,
    work_ones: &mut [u64],
    work_twos: &mut [u64],
) -> u64
    requires { ForJoinWord z.sizes l b.ones.now b.twos.now c.ones.now c.twos.now work_ones.old work_twos.old }
    ensures { let w = half_words z.sizes in
        let A = matrix_at w work_ones.old work_twos.old in
        let B = matrix_at w work_ones.new work_twos.new in
        Rows work_ones.new work_twos.new (l + 5) w
        × Joined l (pairs_of b.entry.ones.now b.entry.twos.now c.entry.ones.now c.entry.twos.now) A B
        × (result ≡ weight_v (B (l + 4)) (64 * w) + weight_v (B (l + 3)) (64 * w)) }
{
    let s = z.shape();
    let rows = l + 5;
    let v = l + 3;
    let u = l + 4;
    join_halves(work_ones, work_twos, rows, s.words, u, v, l + 2, b, c);
    let work = Planes {
        ones: work_ones,
        twos: work_twos,
    };
    grid::weights::pair_weight(work, rows, s.words, u, v)
}

// The halves of the word in the rows of e_U and e_V; 12, 13, and 14 where its weight is not w.
pub fn make_word(
    z: FittingSizes,
    l: usize,
    secret: SecretPlanes,
    p: &[u16],
    y: Planes,
    choices: Choices,
    work_ones: &mut [u64],
    work_twos: &mut [u64],
) -> Result<(), Refusal>
    requires { ForMakeWord z.sizes l (given_lent secret p.now y choices) work_ones.old work_twos.old }
    ensures { let i = given_lent secret.entry p.now y.entry choices.entry in
        (code_of result ≡ ending z.sizes i) × Rows work_ones.new work_twos.new (l + 5) (half_words z.sizes)
        × MadeWhere (code_of result) z.sizes l i (matrix_at (half_words z.sizes) work_ones.new work_twos.new) }
{
    let SecretPlanes { b, c, .. } = secret;
    part_word(z, l, b, c, p, y, work_ones, work_twos);
    solve_halves(z, l, secret, choices, work_ones, work_twos)?;
    if join_word(z, l, b, c, work_ones, work_twos) != z.sizes.w {
        return Err(Refusal::Weight);
    }
    Ok(())
}
