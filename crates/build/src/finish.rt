// The end of a build: the ranks, the key, and the working space made 0.
// What is written stays two slices: of a slice the length and the ranges of words are known with no clause, of one in a struct they are not.
ghost use Rattle.std.specs.Prelude.{◌≡◌, length};
ghost use Rattle.trits.specs.Planes.{zero_words};
ghost use Rattle.trits.specs.Refusal.{code_of, at_exit};
ghost use Rattle.scheme.specs.Build.{build_refusal, key_order};
ghost use Rattle.calls.specs.Lent.{planes_of, secret_of};
ghost use Rattle.calls.specs.BuildCall.{key_ones_of, key_twos_of};
ghost use Rattle.build.specs.Steps.{ForFinishBuild};

use build_ranks::ranks;
use build_release::release;
use calls::lent::SecretPlanes;
use scheme::sizes::FittingSizes;
use trits::refusal::Refusal;

// 9, 10 or the key; the working space is 0 after each of them.
pub fn finish(
    z: FittingSizes,
    secret: SecretPlanes,
    start: &[u16],
    p: &mut [u16],
    key_ones: &mut [u64],
    key_twos: &mut [u64],
    work_ones: &mut [u64],
    work_twos: &mut [u64],
) -> Result<(), Refusal>
    requires { ForFinishBuild z.sizes (planes_of secret) start.now p.old key_ones.old key_twos.old work_ones.old work_twos.old }
    ensures { let s = secret_of z.sizes (planes_of secret.entry) in
        (code_of result ≡ build_refusal z.sizes s)
        × (p.new ≡ at_exit (build_refusal z.sizes s) (key_order z.sizes s start.now) p.old)
        × (key_ones.new ≡ at_exit (build_refusal z.sizes s) (key_ones_of z.sizes s start.now) key_ones.old)
        × (key_twos.new ≡ at_exit (build_refusal z.sizes s) (key_twos_of z.sizes s start.now) key_twos.old)
        × (work_ones.new ≡ zero_words (length work_ones.old))
        × (work_twos.new ≡ zero_words (length work_twos.old)) }
{
    let tested = ranks::test_ranks(z, secret.hu, secret.hv, work_ones, work_twos);
    if tested.is_ok() {
        release::release(
            z, secret, start, p, key_ones, key_twos, work_ones, work_twos,
        );
    }
    calls::work::clear(work_ones, work_twos);
    tested
}
