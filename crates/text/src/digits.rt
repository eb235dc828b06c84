// The planes of a digit field.
// A row that is written stays two slices: it is a stretch of each plane, and of a slice the length and the ranges of words are known with no clause.
ghost use Rattle.std.specs.Prelude.{length};
ghost use Rattle.trits.specs.Planes.{Holds};
ghost use Rattle.text.specs.Digits.{digit_row};
ghost use Rattle.text.specs.Steps.{ForPutDigits};

// The trits of the digits are written to planes that are 0.
pub fn put_digits(field: &[u8], ones: &mut [u64], twos: &mut [u64])
    requires { ForPutDigits field.now ones.old twos.old }
    ensures { Holds ones.new twos.new (length ones.old) (digit_row field.now) }
{
    for (i, digit) in field.iter().enumerate() {
        planes::places::put_trit(ones, twos, i, *digit - b'0');
    }
}
