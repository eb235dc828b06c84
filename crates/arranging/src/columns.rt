// Two places of an order exchanged, and two columns of a matrix.
ghost use Rattle.std.specs.Prelude.{◌≡◌, ◌<◌, length};
ghost use Rattle.trits.specs.Rows.{matrix_at};
ghost use Rattle.grid.specs.Steps.{Grid};
ghost use Rattle.scheme.specs.Build.{swap};
ghost use Rattle.arranging.specs.Columns.{exchanged, exchanged_in};
ghost use Rattle.arranging.specs.Steps.{ForExchangeTrits, ForExchangeColumns};

use pivoting::search;
use trits::Planes;

// Two places of the order are exchanged.
pub fn exchange(order: &mut [u16], j: usize, l: usize)
    requires { (j < length order.old) × (l < length order.old) }
    ensures { order.new ≡ swap j l order.old }
{
    order.swap(j, l);
}

// The trits of row i at the columns a and b are exchanged.
pub fn exchange_trits(
    ones: &mut [u64],
    twos: &mut [u64],
    rows: usize,
    w: usize,
    a: usize,
    b: usize,
    i: usize,
)
    requires { ForExchangeTrits ones.old twos.old rows w a b i }
    ensures { Grid ones.new twos.new rows w (exchanged_in a b i (matrix_at w ones.old twos.old)) }
{
    let m = Planes { ones, twos };
    let x = search::trit_of(m, rows, w, i, a);
    let y = search::trit_of(m, rows, w, i, b);
    grid::places::put_at(ones, twos, rows, w, i, a, y);
    grid::places::put_at(ones, twos, rows, w, i, b, x);
}

// The columns a and b are exchanged in every row, the block's rows too.
pub fn exchange_columns(
    ones: &mut [u64],
    twos: &mut [u64],
    rows: usize,
    w: usize,
    a: usize,
    b: usize,
)
    requires { ForExchangeColumns ones.old twos.old rows w a b }
    ensures { Grid ones.new twos.new rows w (exchanged a b (matrix_at w ones.old twos.old)) }
{
    for i in 0..rows {
        exchange_trits(ones, twos, rows, w, a, b, i);
    }
}
