// Operations on two trits, sixty-four at a time: the sum and the difference.
ghost use Rattle.std.specs.Prelude.{◌≡◌};
ghost use Rattle.trits.specs.Trit.{Trit, t0, add_t, sub_t};
ghost use Rattle.trits.proofs.Arithmetic.{add_zero_r};
ghost use Rattle.grid.specs.Steps.{Joined};

// An operation that leaves a trit as it is where the second one is 0.
pub trait Operation {
    ghost op: { Trit → Trit → Trit };

    // The ones and the twos that it makes of the trits in a and b and those in c and d, ones before twos.
    fn words(a: u64, b: u64, c: u64, d: u64) -> (u64, u64)
        ensures { Joined op a b c d result };

    ghost zero: { (x : Trit) → op x t0 ≡ x };
}

// The sum.
pub struct Sum;

impl Operation for Sum {
    ghost op = { add_t };

    ghost zero = { add_zero_r };

    fn words(a: u64, b: u64, c: u64, d: u64) -> (u64, u64) {
        let t = (a | d) ^ (b | c);
        ((b | d) ^ t, (a | c) ^ t)
    }
}

// The difference: the sum with the negative, whose planes are exchanged.
pub struct Difference;

impl Operation for Difference {
    ghost op = { sub_t };

    ghost zero = { add_zero_r };

    fn words(a: u64, b: u64, c: u64, d: u64) -> (u64, u64) {
        Sum::words(a, b, d, c)
    }
}
