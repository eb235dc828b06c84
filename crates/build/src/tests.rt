// The tests of a build's lengths and contents.
ghost use Rattle.std.specs.Prelude.{◌≡◌, ◌||◌, IfOk, length};
ghost use Rattle.trits.specs.Refusal.{code_of, demand, first};
ghost use Rattle.matrix.specs.Orders.{is_order};
ghost use Rattle.scheme.specs.Sizes.{places};
ghost use Rattle.calls.specs.Lent.{planes_of, secret_differs, differs, secret_refusal};
ghost use Rattle.calls.specs.BuildCall.{key_differs};
ghost use Rattle.calls.specs.Steps.{Readable};
ghost use Rattle.build.specs.Steps.{ForTestContentsBuild};

use calls::lent::SecretPlanes;
use calls::{order, tests};
use scheme::sizes::{FittingSizes, Shape};
use trits::Planes;
use trits::refusal::Refusal;

// Whether a length of the starting order, p, the key or the working space differs from what the sizes say.
pub fn key_differs(
    z: FittingSizes,
    s: usize,
    p: usize,
    k1: usize,
    k2: usize,
    w1: usize,
    w2: usize,
) -> bool
    ensures { result ≡ key_differs z.sizes s p k1 k2 w1 w2 }
{
    let Shape {
        half,
        words,
        ru,
        rv,
    } = z.shape();
    let k = z.sizes.ku as usize + z.sizes.kv as usize;
    let rows = ru + rv;
    tests::pair_differs(half + half, s, p)
        || tests::pair_differs(k * rows.div_ceil(64), k1, k2)
        || tests::pair_differs((rows + 243) * (words + words), w1, w2)
}

// The same of what is lent.
pub fn lent_key_differs(
    z: FittingSizes,
    start: &[u16],
    p: &[u16],
    key: Planes,
    work: Planes,
) -> bool
    ensures { result ≡ key_differs z.sizes (length start.now) (length p.now) (length key.entry.ones.now) (length key.entry.twos.now)
        (length work.entry.ones.now) (length work.entry.twos.now) }
{
    let Planes { ones, twos } = work;
    key_differs(
        z,
        start.len(),
        p.len(),
        key.ones.len(),
        key.twos.len(),
        ones.len(),
        twos.len(),
    )
}

// Whether a length differs from what the sizes say.
pub fn lengths_differ(
    z: FittingSizes,
    hu1: usize,
    hu2: usize,
    hv1: usize,
    hv2: usize,
    b1: usize,
    b2: usize,
    c1: usize,
    c2: usize,
    s: usize,
    p: usize,
    k1: usize,
    k2: usize,
    w1: usize,
    w2: usize,
) -> bool
    ensures { result ≡ (secret_differs z.sizes hu1 hu2 hv1 hv2 b1 b2 c1 c2 || key_differs z.sizes s p k1 k2 w1 w2) }
{
    tests::secret_differs(z, hu1, hu2, hv1, hv2, b1, b2, c1, c2)
        || key_differs(z, s, p, k1, k2, w1, w2)
}

// The same of what the call is lent.
pub fn lent_lengths_differ(
    z: FittingSizes,
    secret: SecretPlanes,
    start: &[u16],
    p: &[u16],
    key: Planes,
    work: Planes,
) -> bool
    ensures { result ≡ (differs z.sizes (planes_of secret.entry)
        || key_differs z.sizes (length start.now) (length p.now) (length key.entry.ones.now) (length key.entry.twos.now)
        (length work.entry.ones.now) (length work.entry.twos.now)) }
{
    let SecretPlanes { hu, hv, b, c } = secret;
    lengths_differ(
        z,
        hu.ones.len(),
        hu.twos.len(),
        hv.ones.len(),
        hv.twos.len(),
        b.ones.len(),
        b.twos.len(),
        c.ones.len(),
        c.twos.len(),
        start.len(),
        p.len(),
        key.ones.len(),
        key.twos.len(),
        work.ones.len(),
        work.twos.len(),
    )
}

// The contents, buffer after buffer, of lengths that are right: a secret that passes can be read.
pub fn test_contents(z: FittingSizes, secret: SecretPlanes, start: &[u16]) -> Result<(), Refusal>
    requires { ForTestContentsBuild z.sizes (planes_of secret) start.now }
    ensures refusal { code_of result ≡ first (secret_refusal z.sizes (planes_of secret.entry))
        (demand (is_order (places z.sizes) start.now) 7 0) }
    ensures readable { IfOk result (λ _. Readable z.sizes (planes_of secret.entry)) }
{
    tests::test_secret(z, secret)?;
    if !order::is_order(start) {
        return Err(Refusal::NoPermutation);
    }
    Ok(())
}
