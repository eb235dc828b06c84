// The tests that both calls make: lengths, zeros, the secret's buffers.
ghost use Rattle.std.specs.Prelude.{◌≡◌, ◌+◌, IfOk};
ghost use Rattle.trits.specs.Planes.{trit_at};
ghost use Rattle.trits.specs.Refusal.{code_of};
ghost use Rattle.calls.specs.Lent.{planes_of, pair_differs, secret_differs, differs, secret_refusal};
ghost use Rattle.scheme.specs.Secret.{has_zero};
ghost use Rattle.calls.specs.Steps.{ForHasZero, Lengths, Readable};

use crate::lent::SecretPlanes;
use planes::{faults, places};
use scheme::sizes::FittingSizes;
use trits::Planes;
use trits::refusal::Refusal;

// Whether one of two planes has another length than m.
pub fn pair_differs(m: usize, ones: usize, twos: usize) -> bool
    ensures { result ≡ pair_differs m ones twos }
{
    ones != m || twos != m
}

// Whether a length of H_U, H_V, b or c differs from what the sizes say.
pub fn secret_differs(
    z: FittingSizes,
    hu1: usize,
    hu2: usize,
    hv1: usize,
    hv2: usize,
    b1: usize,
    b2: usize,
    c1: usize,
    c2: usize,
) -> bool
    ensures { result ≡ secret_differs z.sizes hu1 hu2 hv1 hv2 b1 b2 c1 c2 }
{
    let s = z.shape();
    pair_differs(s.ru * s.words, hu1, hu2)
        || pair_differs(s.rv * s.words, hv1, hv2)
        || pair_differs(s.words, b1, b2)
        || pair_differs(s.words, c1, c2)
}

// Whether a length of the planes of a secret differs from what the sizes say.
pub fn lent_secret_differs(z: FittingSizes, secret: SecretPlanes) -> bool
    ensures { result ≡ differs z.sizes (planes_of secret.entry) }
{
    let SecretPlanes { hu, hv, b, c } = secret;
    secret_differs(
        z,
        hu.ones.len(),
        hu.twos.len(),
        hv.ones.len(),
        hv.twos.len(),
        b.ones.len(),
        b.twos.len(),
        c.ones.len(),
        c.twos.len(),
    )
}

// Whether one of the m trits from place `from` on is 0.
pub fn has_zero(row: Planes, from: usize, m: usize) -> bool
    requires { ForHasZero row.ones.now row.twos.now from m }
    ensures { result ≡ has_zero m (λ j. trit_at row.entry.ones.now row.entry.twos.now (from + j)) }
{
    (0..m).any(|j| places::trit_at(row, from + j) == 0)
}

// The contents of H_U, H_V, b and c, buffer after buffer, of lengths that are right: what passes can be read.
pub fn test_secret(z: FittingSizes, secret: SecretPlanes) -> Result<(), Refusal>
    requires { Lengths z.sizes (planes_of secret) }
    ensures refusal { code_of result ≡ secret_refusal z.sizes (planes_of secret.entry) }
    ensures readable { IfOk result (λ _. Readable z.sizes (planes_of secret.entry)) }
{
    let s = z.shape();
    let SecretPlanes { hu, hv, b, c } = secret;
    faults::test_planes(hu, s.ru, s.half)?;
    faults::test_planes(hv, s.rv, s.half)?;
    faults::test_planes(b, 1, s.half)?;
    faults::test_planes(c, 1, s.half)?;
    if has_zero(c, 0, s.half) {
        return Err(Refusal::ZeroTrit);
    }
    Ok(())
}
