// The work matrix of a secret, and the key that it makes.
ghost use Rattle.std.specs.Prelude.{◌≡◌};
ghost use Rattle.scheme.specs.Build.{key_order};
ghost use Rattle.calls.specs.Lent.{planes_of, secret_of};
ghost use Rattle.calls.specs.BuildCall.{key_ones_of, key_twos_of};
ghost use Rattle.build_release.specs.Steps.{Filled, ForFillMatrix, ForRelease};

use super::{make, order};
use build_matrix::fill;
use build_matrix::halves::Half;
use calls::lent::SecretPlanes;
use scheme::sizes::{FittingSizes, Shape};

// The work matrix is filled from the secret: each row of H_U makes (h + b·c·h | -b·h), and each row of H_V makes (-c·h | h).
pub fn fill_matrix(
    z: FittingSizes,
    secret: SecretPlanes,
    work_ones: &mut [u64],
    work_twos: &mut [u64],
)
    requires { ForFillMatrix z.sizes (planes_of secret) work_ones.old work_twos.old }
    ensures { Filled z.sizes (secret_of z.sizes (planes_of secret.entry)) work_ones.new work_twos.new }
{
    let Shape { words, ru, rv, .. } = z.shape();
    let SecretPlanes { hu, hv, b, c } = secret;
    let m = ru + rv + 243; // the secret matrix, and three tables
    let rows = m + m; // in halves
    planes::words::zero_words(work_ones);
    planes::words::zero_words(work_twos);
    let (left, right) = (Half::Scaled(b, c), Half::Negative(b));
    fill::fill(work_ones, work_twos, rows, words, 0, ru, hu, left, right);
    let (left, right) = (Half::Negative(c), Half::Same);
    fill::fill(work_ones, work_twos, rows, words, ru, rv, hv, left, right); // after the rows of H_U
}

// The key of a secret of full ranks: the final order, and R, of which each row is written into the lent key from its own start on.
pub fn release(
    z: FittingSizes,
    secret: SecretPlanes,
    start: &[u16],
    p: &mut [u16],
    key_ones: &mut [u64],
    key_twos: &mut [u64],
    work_ones: &mut [u64],
    work_twos: &mut [u64],
)
    requires { ForRelease z.sizes (planes_of secret) start.now p.old key_ones.old key_twos.old work_ones.old work_twos.old }
    ensures { let s = secret_of z.sizes (planes_of secret.entry) in
        (p.new ≡ key_order z.sizes s start.now)
        × (key_ones.new ≡ key_ones_of z.sizes s start.now) × (key_twos.new ≡ key_twos_of z.sizes s start.now) }
{
    let Shape {
        half,
        words,
        ru,
        rv,
    } = z.shape();
    let r = ru + rv;
    let k = z.sizes.ku as usize + z.sizes.kv as usize;
    let kw = r.div_ceil(64);
    let w = words + words; // of both halves
    fill_matrix(z, secret, work_ones, work_twos);
    order::copy_order(p, start);
    make::make_key(
        work_ones, work_twos, r, w, half, words, p, k, kw, key_ones, key_twos,
    );
}
