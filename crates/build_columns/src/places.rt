// The column of a place, in rows of two halves that each begin a word.
ghost use Rattle.std.specs.Prelude.{◌≡◌};
ghost use Rattle.build_matrix.specs.Steps.{col_of};
ghost use Rattle.build_columns.specs.Steps.{ForColumn};

// An order of the places of two halves, each of `half` places in hw words.
#[derive(Clone, Copy)]
pub struct Places<'a> {
    pub order: &'a [u16],
    pub half: usize,
    pub hw: usize,
}

impl Places<'_> {
    // The column of a place: the second half begins at word hw.
    pub fn column(self, q: usize) -> usize
        requires { ForColumn q self.half self.hw }
        ensures { result ≡ col_of self.entry.half self.entry.hw q }
    {
        if q < self.half {
            q
        } else {
            64 * self.hw + (q - self.half)
        }
    }
}
