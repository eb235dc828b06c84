// A row that is being written, from its first place on.
// A row that is written stays two slices: it is a stretch of each plane, and of a slice the length and the ranges of words are known with no clause.
ghost use Rattle.placing.specs.Steps.{Appended, Finished, ForAppend, ForFinish};

// What a piece counts its twos in: its ones stand in the low half of the word, its twos in the high half.
pub const HALF: u64 = 4294967296;

// The place that is reached, and of each plane the word that is begun there.
#[derive(Clone, Copy, Default)]
pub struct Writer {
    pub at: usize,
    pub ones: u64,
    pub twos: u64,
}

impl Writer {
    // A piece of so many trits comes to the row: a word that is full is written, and what is left of the piece begins the next.
    pub fn append(&mut self, ones: &mut [u64], twos: &mut [u64], piece: u64, count: usize)
        requires { ForAppend ones.old twos.old self.old.at count }
        ensures { Appended ones.old twos.old self.old piece count ones.new twos.new self.new }
    {
        let j = self.at / 64;
        let s = self.at % 64;
        let in_ones = piece % HALF;
        let in_twos = piece / HALF;
        let word_ones = in_ones << s | self.ones;
        let word_twos = in_twos << s | self.twos;
        let at = self.at + count;
        if s + count < 64 {
            *self = Writer {
                at,
                ones: word_ones,
                twos: word_twos,
            };
            return;
        }
        ones[j] = word_ones;
        twos[j] = word_twos;
        *self = Writer {
            at,
            ones: in_ones >> (64 - s),
            twos: in_twos >> (64 - s),
        };
    }

    // The word that is begun is written, where there is one.
    pub fn finish(self, ones: &mut [u64], twos: &mut [u64])
        requires { ForFinish ones.old twos.old self.at }
        ensures { Finished ones.old twos.old self ones.new twos.new }
    {
        let j = self.at / 64;
        if j >= ones.len() {
            return;
        }
        ones[j] = self.ones;
        twos[j] = self.twos;
    }
}
