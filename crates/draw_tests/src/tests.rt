// The tests of a draw's lengths and contents.
ghost use Rattle.std.specs.Prelude.{◌≡◌, ◌||◌, IfOk};
ghost use Rattle.trits.specs.Refusal.{code_of, first};
ghost use Rattle.calls.specs.Lent.{planes_of, secret_differs, differs, secret_refusal};
ghost use Rattle.calls.specs.DrawCall.{choices_differ, lent_differ, choices_refusal};
ghost use Rattle.calls.specs.Steps.{Lengths};
ghost use Rattle.draw_tests.specs.Steps.{given_lent, chosen_lent, LentLengths, Chosen, Ready};

use calls::lent::{Choices, SecretPlanes};
use calls::{order, tests};
use planes::faults;
use scheme::sizes::FittingSizes;
use trits::Planes;
use trits::refusal::Refusal;

// Whether a length of p, y, the choices, the word, s or the working space differs from what the sizes say.
pub fn choices_differ(
    z: FittingSizes,
    p: usize,
    y1: usize,
    y2: usize,
    ov: usize,
    v1: usize,
    v2: usize,
    ou: usize,
    u1: usize,
    u2: usize,
    e1: usize,
    e2: usize,
    s1: usize,
    s2: usize,
    w1: usize,
    w2: usize,
) -> bool
    ensures { result ≡ choices_differ z.sizes p y1 y2 ov v1 v2 ou u1 u2 e1 e2 s1 s2 w1 w2 }
{
    let shape = z.shape();
    let half = shape.half;
    let ku = z.sizes.ku as usize;
    let kv = z.sizes.kv as usize;
    let rows = shape.ru.max(shape.rv) + 248;
    p != half + half
        || tests::pair_differs((shape.ru + shape.rv).div_ceil(64), y1, y2)
        || tests::pair_differs(half, ov, ou)
        || tests::pair_differs(kv.div_ceil(64), v1, v2)
        || tests::pair_differs(ku.div_ceil(64), u1, u2)
        || tests::pair_differs((half + half).div_ceil(64), e1, e2)
        || tests::pair_differs((ku + kv).div_ceil(64), s1, s2)
        || tests::pair_differs(rows * shape.words, w1, w2)
}

// The same of what is lent.
pub fn lent_choices_differ(
    z: FittingSizes,
    p: &[u16],
    y: Planes,
    choices: Choices,
    word: Planes,
    s: Planes,
    work: Planes,
) -> bool
    ensures { result ≡ lent_differ z.sizes p.now y.entry choices.entry word.entry s.entry work.entry }
{
    let Planes { ones, twos } = work;
    choices_differ(
        z,
        p.len(),
        y.ones.len(),
        y.twos.len(),
        choices.v_order.len(),
        choices.v.ones.len(),
        choices.v.twos.len(),
        choices.u_order.len(),
        choices.u.ones.len(),
        choices.u.twos.len(),
        word.ones.len(),
        word.twos.len(),
        s.ones.len(),
        s.twos.len(),
        ones.len(),
        twos.len(),
    )
}

// Whether a length differs from what the sizes say.
pub fn lengths_differ(
    z: FittingSizes,
    hu1: usize,
    hu2: usize,
    hv1: usize,
    hv2: usize,
    b1: usize,
    b2: usize,
    c1: usize,
    c2: usize,
    p: usize,
    y1: usize,
    y2: usize,
    ov: usize,
    v1: usize,
    v2: usize,
    ou: usize,
    u1: usize,
    u2: usize,
    e1: usize,
    e2: usize,
    s1: usize,
    s2: usize,
    w1: usize,
    w2: usize,
) -> bool
    ensures { result ≡ (secret_differs z.sizes hu1 hu2 hv1 hv2 b1 b2 c1 c2
        || choices_differ z.sizes p y1 y2 ov v1 v2 ou u1 u2 e1 e2 s1 s2 w1 w2) }
{
    tests::secret_differs(z, hu1, hu2, hv1, hv2, b1, b2, c1, c2)
        || choices_differ(z, p, y1, y2, ov, v1, v2, ou, u1, u2, e1, e2, s1, s2, w1, w2)
}

// The same of what the call is lent.
pub fn lent_lengths_differ(
    z: FittingSizes,
    secret: SecretPlanes,
    p: &[u16],
    y: Planes,
    choices: Choices,
    word: Planes,
    s: Planes,
    work: Planes,
) -> bool
    ensures { result ≡ (differs z.sizes (planes_of secret.entry)
        || lent_differ z.sizes p.now y.entry choices.entry word.entry s.entry work.entry) }
{
    let SecretPlanes { hu, hv, b, c } = secret;
    lengths_differ(
        z,
        hu.ones.len(),
        hu.twos.len(),
        hv.ones.len(),
        hv.twos.len(),
        b.ones.len(),
        b.twos.len(),
        c.ones.len(),
        c.twos.len(),
        p.len(),
        y.ones.len(),
        y.twos.len(),
        choices.v_order.len(),
        choices.v.ones.len(),
        choices.v.twos.len(),
        choices.u_order.len(),
        choices.u.ones.len(),
        choices.u.twos.len(),
        word.ones.len(),
        word.twos.len(),
        s.ones.len(),
        s.twos.len(),
        work.ones.len(),
        work.twos.len(),
    )
}

// The contents of p, y and the choices, buffer after buffer, of lengths that are right: what passes can be read.
pub fn test_choices(z: FittingSizes, p: &[u16], y: Planes, choices: Choices) -> Result<(), Refusal>
    requires { LentLengths z.sizes p.now y choices }
    ensures refusal { code_of result ≡ choices_refusal z.sizes (chosen_lent p.now y.entry choices.entry) }
    ensures readable { IfOk result (λ _. Chosen z.sizes (chosen_lent p.now y.entry choices.entry)) }
{
    let shape = z.shape();
    let ku = z.sizes.ku as usize;
    let kv = z.sizes.kv as usize;
    let gu = z.sizes.gu as usize;
    let Choices {
        v_order,
        v,
        u_order,
        u,
    } = choices;
    if !order::is_order(p) {
        return Err(Refusal::NoPermutation);
    }
    faults::test_planes(y, 1, shape.ru + shape.rv)?;
    if !order::is_order(v_order) {
        return Err(Refusal::NoPermutation);
    }
    faults::test_planes(v, 1, kv)?;
    if !order::is_order(u_order) {
        return Err(Refusal::NoPermutation);
    }
    faults::test_planes(u, 1, ku)?;
    if tests::has_zero(u, gu, ku - gu) {
        return Err(Refusal::ZeroTrit);
    }
    Ok(())
}

// The contents, buffer after buffer, of lengths that are right: what passes can be read.
pub fn test_contents(
    z: FittingSizes,
    secret: SecretPlanes,
    p: &[u16],
    y: Planes,
    choices: Choices,
) -> Result<(), Refusal>
    requires secret_lengths { Lengths z.sizes (planes_of secret) }
    requires chosen_lengths { LentLengths z.sizes p.now y choices }
    ensures refusal { code_of result ≡ first (secret_refusal z.sizes (planes_of secret.entry))
        (choices_refusal z.sizes (chosen_lent p.now y.entry choices.entry)) }
    ensures ready { IfOk result (λ _. Ready z.sizes (given_lent secret.entry p.now y.entry choices.entry)) }
{
    tests::test_secret(z, secret)?;
    test_choices(z, p, y, choices)
}
