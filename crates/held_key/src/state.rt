// The module's state, and the sizes that it says.
ghost use Rattle.std.specs.Prelude.{◌≡◌, true, false, MatchOption};
ghost use Rattle.held_key.specs.Held.{numbers_fit, sound, row_trits, row_words, key_words};
ghost use Rattle.held_key.specs.Store.{next_held};

// The state, as a C host keeps it: begun is 0 or 1, and all zero is no key begun.
#[repr(C)]
#[derive(Clone, Copy, Default)]
pub struct Held {
    pub begun: u64,
    pub number: u64,
    pub n: u64,
    pub k: u64,
    pub w: u64,
    pub rows: u64, // stored so far
}

// A state that is sound: its key is begun, and its sizes can be asked.
#[derive(Clone, Copy)]
pub struct BegunKey {
    pub held: Held,
    pub ghost sound: { sound held ≡ true },
}

// The largest key number.
pub const MOST_KEY_NUMBER: u64 = 4294967295;

// Whether the numbers of a key are in their ranges.
pub fn numbers_fit(number: u64, n: u64, k: u64, w: u64) -> bool
    ensures { result ≡ numbers_fit number n k w }
{
    number <= MOST_KEY_NUMBER
        && (4..=16384).contains(&n)
        && n % 2 == 0
        && (2..=n - 2).contains(&k)
        && (1..=n).contains(&w)
}

impl Held {
    // Whether a key is begun, its numbers are in their ranges, and no more than k rows are counted.
    pub fn is_sound(self) -> bool
        ensures { result ≡ sound self }
    {
        self.begun == 1 && numbers_fit(self.number, self.n, self.k, self.w) && self.rows <= self.k
    }

    // The same state as one that is sound, if it is.
    pub fn begun_key(self) -> Option<BegunKey>
        ensures { MatchOption result (sound self ≡ false) (λ key. key.held ≡ self) }
    {
        if self.is_sound() {
            Some(BegunKey { held: self })
        } else {
            None
        }
    }
}

impl BegunKey {
    // The trits of a row.
    pub fn row_trits(self) -> usize
        ensures { result ≡ row_trits self.held }
    {
        (self.held.n - self.held.k) as usize
    }

    // The words of a row in one plane.
    pub fn row_words(self) -> usize
        ensures { result ≡ row_words self.held }
    {
        (self.row_trits() + 63) / 64
    }

    // The words of the whole key in one plane.
    pub fn key_words(self) -> usize
        ensures { result ≡ key_words self.held }
    {
        self.held.k as usize * self.row_words()
    }

    // The state that counts one row more.
    pub fn count_row(self) -> Held
        ensures { result ≡ next_held self.held }
    {
        Held {
            rows: self.held.rows + 1,
            ..self.held
        }
    }
}
