// Half-rows of the secret matrix, made in rows of the working planes.
// A row that is written stays two slices: it is a stretch of each plane, and of a slice the length and the ranges of words are known with no clause.
ghost use Rattle.std.specs.Prelude.{◌*◌, length};
ghost use Rattle.trits.specs.Planes.{trit_at, Reads};
ghost use Rattle.trits.specs.Rows.{matrix_at};
ghost use Rattle.grid.specs.Steps.{Grid, put_row};
ghost use Rattle.build_matrix.specs.Steps.{scaled_by, negative_by, half_of, ForScaled, ForNegative, ForHalf, ForPutHalf};

use trits::Planes;

// What a half-row is of a row h of H_U or H_V.
#[derive(Clone, Copy)]
pub enum Half<'a> {
    Scaled(Planes<'a>, Planes<'a>), // h times 1 + b·c, of b and c
    Negative(Planes<'a>), // the negative of h times v, of v
    Same, // h
}

// The row becomes h times 1 + b·c: h times b times c, and h added.
pub fn scaled(ones: &mut [u64], twos: &mut [u64], h: Planes, b: Planes, c: Planes)
    requires { ForScaled ones.old twos.old h.ones.now h.twos.now b.ones.now b.twos.now c.ones.now c.twos.now }
    ensures { Reads ones.new twos.new (length ones.old)
        (scaled_by (trit_at b.entry.ones.now b.entry.twos.now) (trit_at c.entry.ones.now c.entry.twos.now)
        (trit_at h.entry.ones.now h.entry.twos.now)) }
{
    planes::words::copy_words(ones, h.ones);
    planes::words::copy_words(twos, h.twos);
    rows::mul_row(ones, twos, b);
    rows::mul_row(ones, twos, c);
    rows::add_row(ones, twos, h);
}

// The row becomes the negative of h times v.
pub fn negative(ones: &mut [u64], twos: &mut [u64], h: Planes, v: Planes)
    requires { ForNegative ones.old twos.old h.ones.now h.twos.now v.ones.now v.twos.now }
    ensures { Reads ones.new twos.new (length ones.old)
        (negative_by (trit_at v.entry.ones.now v.entry.twos.now) (trit_at h.entry.ones.now h.entry.twos.now)) }
{
    planes::words::copy_words(ones, h.ones);
    planes::words::copy_words(twos, h.twos);
    rows::mul_row(ones, twos, v);
    rows::negate_row(ones, twos);
}

impl Half<'_> {
    // The row becomes this half of h.
    fn make(self, ones: &mut [u64], twos: &mut [u64], h: Planes)
        requires { ForHalf ones.old twos.old h.ones.now h.twos.now self }
        ensures { Reads ones.new twos.new (length ones.old) (half_of self.entry (trit_at h.entry.ones.now h.entry.twos.now)) }
    {
        match self {
            Half::Scaled(b, c) => scaled(ones, twos, h, b, c),
            Half::Negative(v) => negative(ones, twos, h, v),
            Half::Same => {
                planes::words::copy_words(ones, h.ones);
                planes::words::copy_words(twos, h.twos);
            }
        }
    }

    // Row j of a matrix becomes this half of h.
    pub fn put(self, ones: &mut [u64], twos: &mut [u64], rows: usize, w: usize, j: usize, h: Planes)
        requires { ForPutHalf ones.old twos.old rows w j h.ones.now h.twos.now self }
        ensures { Grid ones.new twos.new rows w
            (put_row j (half_of self.entry (trit_at h.entry.ones.now h.entry.twos.now)) (matrix_at w ones.old twos.old)) }
    {
        let a = j * w;
        let e = a + w;
        self.make(&mut ones[a..e], &mut twos[a..e], h);
    }
}
