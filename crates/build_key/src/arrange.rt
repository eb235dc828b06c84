// The column rule, and both passes: the columns come into the order, those without a pivot go to its end, and the kept ones become the identity.
ghost use Rattle.std.specs.Prelude.{◌≡◌, length};
ghost use Rattle.trits.specs.Rows.{matrix_at};
ghost use Rattle.grid.specs.Steps.{Rows};
ghost use Rattle.scheme.specs.Build.{arranged};
ghost use Rattle.build_matrix.specs.Steps.{placed_at};
ghost use Rattle.build_key.specs.Steps.{FirstPass, Keyed, ForArrange};

use build_columns::gather_own;
use build_columns::places::Places;

// The first pass: the order is arranged, and each kept column cleared in the rows below its own.
pub fn first_pass(
    ones: &mut [u64],
    twos: &mut [u64],
    rows: usize,
    w: usize,
    r: usize,
    half: usize,
    hw: usize,
    order: &mut [u16],
)
    requires { ForArrange ones.old twos.old rows w r half hw order.old }
    ensures order_after { order.new ≡ (arranged r (length order.old) (placed_at half hw w ones.old twos.old)
        order.old).order }
    ensures first_pass { FirstPass r (length order.old) (placed_at half hw w ones.old twos.old)
        (matrix_at w ones.new twos.new) order.new }
    ensures rows { Rows ones.new twos.new rows w }
{
    gather_own::gather_own(ones, twos, rows, w, r, Places { order, half, hw });
    arranging::arrange::clear_below(ones, twos, rows, w, r, order);
}

// Both passes: the matrix is brought to the form in which R stands in the columns from r on.
pub fn arrange(
    ones: &mut [u64],
    twos: &mut [u64],
    rows: usize,
    w: usize,
    r: usize,
    half: usize,
    hw: usize,
    order: &mut [u16],
)
    requires { ForArrange ones.old twos.old rows w r half hw order.old }
    ensures order_after { order.new ≡ (arranged r (length order.old) (placed_at half hw w ones.old twos.old)
        order.old).order }
    ensures keyed { Keyed r (length order.old) (placed_at half hw w ones.old twos.old)
        (matrix_at w ones.new twos.new) order.new }
    ensures rows { Rows ones.new twos.new rows w }
{
    first_pass(ones, twos, rows, w, r, half, hw, order);
    raising::raise::raise(ones, twos, rows, w, r);
}
