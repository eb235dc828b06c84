// A block of 64 words is turned in six stages: a stage of width j exchanges bit j of a row's number with bit j of a column's number.
// Loops go over indices: both rows of a pair are written, and each stage is a call of its own with its own mask.
ghost use Rattle.std.specs.Prelude.{◌≡◌, ◌+◌, ◌*◌, length};
ghost use Rattle.turning.specs.Steps.{ExchangedPairs, Exchanged, Turned, ForExchangeRun, ForExchange};

// The rows k from 2 * j * t on, j of them: the columns of the mask of row k + j change places with those j further of row k.
pub fn exchange_run(block: &mut [u64], t: usize, j: usize, mask: u64)
    requires { ForExchangeRun block.old t j mask }
    ensures { ExchangedPairs j (j * t) (j * t + j) block.old block.new }
{
    let s = 2 * (j * t);
    for x in 0..j {
        let k = s + x;
        let n = k + j;
        let a = block[k];
        let b = block[n];
        let y = (a >> j ^ b) & mask;
        block[k] = a ^ y << j;
        block[n] = b ^ y;
    }
}

// One stage: all 32 pairs of rows, run by run.
pub fn exchange(block: &mut [u64], j: usize, mask: u64)
    requires { ForExchange block.old j mask }
    ensures { Exchanged j block.old block.new }
{
    let n = 32 / j;
    for t in 0..n {
        exchange_run(block, t, j, mask);
    }
}

// Rows become columns: bit b of word i goes to bit i of word b.
pub fn turn(block: &mut [u64])
    requires { length block.old ≡ 64 }
    ensures { Turned block.old block.new }
{
    exchange(block, 32, 0x00000000ffffffff);
    exchange(block, 16, 0x0000ffff0000ffff);
    exchange(block, 8, 0x00ff00ff00ff00ff);
    exchange(block, 4, 0x0f0f0f0f0f0f0f0f);
    exchange(block, 2, 0x3333333333333333);
    exchange(block, 1, 0x5555555555555555);
}
