// The held key of the module's half: its state, its beginning and its rows.
// What is written stays two slices: of a slice the length and the ranges of words are known with no clause, of one in a struct they are not.
#![tactic(auto)]

pub mod state; // the state and its sizes
pub mod key; // the rows of the held key

ghost use Rattle.std.specs.Prelude.{◌≡◌};
ghost use Rattle.held_key.specs.Store.{refusal_of, held_after};
ghost use Rattle.held_key.specs.Store.{begin_refusal, begin_held, store_of, store_refusal, store_held, store_ones, store_twos};
ghost use Rattle.held_key.specs.Store.{packed_store_of, store_packed_refusal, store_packed_held, store_packed_ones, store_packed_twos};

use state::Held;
use trits::Planes;
use trits::refusal::Refusal;

// A key is begun, and replaces the held one.
pub fn begin(held: Held, number: u64, n: u64, k: u64, w: u64) -> Result<Held, Refusal>
    ensures refusal { refusal_of result ≡ begin_refusal number n k w }
    ensures state { held_after held result ≡ begin_held held number n k w }
{
    if !state::numbers_fit(number, n, k, w) {
        return Err(Refusal::Size);
    }
    Ok(Held {
        begun: 1,
        number,
        n,
        k,
        w,
        rows: 0,
    })
}

// A row in planes becomes the next row of the held key.
pub fn store_row(
    held: Held,
    ones: &mut [u64],
    twos: &mut [u64],
    row: Planes,
) -> Result<Held, Refusal>
    ensures { let c = store_of held ones.old twos.old row.entry.ones.now row.entry.twos.now in
        (refusal_of result ≡ store_refusal c) × (held_after held result ≡ store_held c)
        × (ones.new ≡ store_ones c) × (twos.new ≡ store_twos c) }
{
    let begun = key::test_row(held, Planes { ones, twos }, row)?;
    let start = held.rows as usize * begun.row_words();
    planes::words::put_row(ones, start, row.ones);
    planes::words::put_row(twos, start, row.twos);
    Ok(begun.count_row())
}

// A packed row becomes the next row of the held key.
pub fn store_packed_row(
    held: Held,
    ones: &mut [u64],
    twos: &mut [u64],
    row: &[u8],
) -> Result<Held, Refusal>
    ensures { let c = packed_store_of held ones.old twos.old row.now in
        (refusal_of result ≡ store_packed_refusal c) × (held_after held result ≡ store_packed_held c)
        × (ones.new ≡ store_packed_ones c) × (twos.new ≡ store_packed_twos c) }
{
    let begun = key::test_packed_row(held, Planes { ones, twos }, row)?;
    let words = begun.row_words();
    let start = held.rows as usize * words;
    let end = start + words;
    key::write_part(
        begun.row_trits(),
        row,
        &mut ones[start..end],
        &mut twos[start..end],
    );
    Ok(begun.count_row())
}
