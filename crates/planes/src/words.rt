// Words of a plane: zeroed, copied, written from a row's own start on, and handed out as a part.
ghost use Rattle.std.specs.Prelude.{◌≡◌, ◌++◌, ◌+◌, ◌≤◌, length, drop};
ghost use Rattle.trits.specs.Planes.{zero_words};
ghost use Rattle.trits.specs.Rows.{row_part, put_words};

// Every word is made 0.
pub fn zero_words(plane: &mut [u64])
    ensures { plane.new ≡ zero_words (length plane.old) }
{
    plane.fill(0);
}

// The row writer: it is lent a part that begins at the row's first word, and writes the row from there on.
pub fn write_row(part: &mut [u64], row: &[u64])
    requires { length row.now ≤ length part.old }
    ensures { part.new ≡ row.now ++ drop (length row.now) part.old }
{
    // word by word: a call of the library for it would be a name that a host has to have
    for i in 0..row.len() {
        part[i] = row[i];
    }
}

// A row is written into a plane from word `start` on; no other word changes.
pub fn put_row(plane: &mut [u64], start: usize, row: &[u64])
    requires { start + length row.now ≤ length plane.old }
    ensures { plane.new ≡ put_words start plane.old row.now }
{
    write_row(&mut plane[start..], row);
}

// All words of the source are copied.
pub fn copy_words(plane: &mut [u64], src: &[u64])
    requires { length src.now ≡ length plane.old }
    ensures { plane.new ≡ src.now }
{
    write_row(plane, src);
}

// Row i of a plane of `rows` rows of `words` words each, or the empty part.
pub fn row_part<'a>(plane: &'a [u64], rows: usize, words: usize, i: usize) -> &'a [u64]
    requires { (rows ≤ 65536) × (words ≤ 65536) }
    ensures { result.now ≡ row_part plane.now rows words i }
{
    if plane.len() != rows * words || i >= rows {
        return &plane[..0];
    }
    let a = i * words;
    &plane[a..a + words]
}
