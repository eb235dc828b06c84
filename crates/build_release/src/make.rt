// The key of a filled work matrix.
ghost use Rattle.std.specs.Prelude.{◌≡◌, length};
ghost use Rattle.scheme.specs.Build.{arranged};
ghost use Rattle.build_matrix.specs.Steps.{placed_at};
ghost use Rattle.key_rows.specs.Steps.{key_ones, key_twos};
ghost use Rattle.build_release.specs.Steps.{rows_of_r, ForMakeKey};

// The order is arranged, and R is written out, k rows of kw words.
pub fn make_key(
    ones: &mut [u64],
    twos: &mut [u64],
    r: usize,
    w: usize,
    half: usize,
    hw: usize,
    order: &mut [u16],
    k: usize,
    kw: usize,
    ko: &mut [u64],
    kt: &mut [u64],
)
    requires { ForMakeKey ones.old twos.old r w half hw order.old k kw ko.old kt.old }
    ensures order_after { order.new ≡ (arranged r (length order.old) (placed_at half hw w ones.old twos.old)
        order.old).order }
    ensures ko_after { ko.new ≡ key_ones k kw (rows_of_r r (length order.old) (placed_at half hw w ones.old twos.old)
        order.new) }
    ensures kt_after { kt.new ≡ key_twos k kw (rows_of_r r (length order.old) (placed_at half hw w ones.old twos.old)
        order.new) }
{
    build_key::arrange::arrange(ones, twos, r + 243, w, r, half, hw, order);
    key_rows::key::write_key(ones, twos, r + 243, w, r, k, kw, ko, kt);
}
