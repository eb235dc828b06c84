// The held key: its rows handed out, and the tests of a row that is offered.
// A row that is written stays two slices: it is a stretch of each plane, and of a slice the length and the ranges of words are known with no clause.
ghost use Rattle.std.specs.Prelude.{◌≡◌, length, IfOk};
ghost use Rattle.trits.specs.Planes.{words_for, Holds};
ghost use Rattle.packed.specs.Packed.{packed_row};
ghost use Rattle.held_key.specs.Held.{held_row};
ghost use Rattle.held_key.specs.Store.{refusal_of, row_refusal, store_of, store_refusal, packed_store_of, store_packed_refusal};
ghost use Rattle.held_key.specs.Steps.{ForWritePart};

use super::state::{BegunKey, Held};
use trits::Planes;
use trits::refusal::Refusal;

// The stretch of a plane that is row i of the held key, or the empty stretch.
pub fn held_row<'a>(held: Held, plane: &'a [u64], i: usize) -> &'a [u64]
    ensures { result.now ≡ held_row held plane.now i }
{
    let Some(begun) = held.begun_key() else {
        return &plane[..0];
    };
    if i >= held.rows as usize {
        return &plane[..0];
    }
    planes::words::row_part(plane, held.k as usize, begun.row_words(), i)
}

// The first refusal of a row that the state or the length of a plane makes.
fn test_state(held: Held, key: Planes) -> Result<BegunKey, Refusal>
    ensures refusal { refusal_of result ≡ row_refusal held (length key.entry.ones.now) (length key.entry.twos.now) }
    ensures same { IfOk result (λ begun. begun.held ≡ held) }
{
    if held.begun == 0 {
        return Err(Refusal::NoKey);
    }
    let Some(begun) = held.begun_key() else {
        return Err(Refusal::Size);
    };
    if held.rows == held.k {
        return Err(Refusal::WholeKey);
    }
    let words = begun.key_words();
    if key.ones.len() != words || key.twos.len() != words {
        return Err(Refusal::Length);
    }
    Ok(begun)
}

// The first refusal of a row in planes.
pub fn test_row(held: Held, key: Planes, row: Planes) -> Result<BegunKey, Refusal>
    ensures refusal { refusal_of result ≡ store_refusal (store_of held key.entry.ones.now key.entry.twos.now
        row.entry.ones.now row.entry.twos.now) }
    ensures same { IfOk result (λ begun. begun.held ≡ held) }
{
    let begun = test_state(held, key)?;
    let words = begun.row_words();
    if row.ones.len() != words || row.twos.len() != words {
        return Err(Refusal::Length);
    }
    planes::faults::test_planes(row, 1, begun.row_trits())?;
    Ok(begun)
}

// The first refusal of a packed row.
pub fn test_packed_row(held: Held, key: Planes, row: &[u8]) -> Result<BegunKey, Refusal>
    ensures refusal { refusal_of result ≡ store_packed_refusal (packed_store_of held key.entry.ones.now key.entry.twos.now row.now) }
    ensures same { IfOk result (λ begun. begun.held ≡ held) }
{
    let begun = test_state(held, key)?;
    let m = begun.row_trits();
    if row.len() != (m + 4) / 5 {
        return Err(Refusal::Length);
    }
    packing::faults::test_bytes(m, row)?;
    Ok(begun)
}

// The row writer: a packed row that passed its tests fills the parts that it is lent, which begin at its own start.
pub fn write_part(m: usize, row: &[u8], ones: &mut [u64], twos: &mut [u64])
    requires { ForWritePart m row.now ones.old twos.old }
    ensures { Holds ones.new twos.new (words_for m) (packed_row row.now) }
{
    placing::packed_row::write_packed(m, row, ones, twos);
}
