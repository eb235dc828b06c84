// The rows of the key taken from y, and the ones and twos of the full word.
// What is written stays two slices: of a slice the length and the ranges of words are known with no clause, of one in a struct they are not.
ghost use Rattle.std.specs.Prelude.{◌≡◌, ℕ, ◌≤◌, ◌<◌, length};
ghost use Rattle.trits.specs.Trit.{sub_t, mul_t, zip_v, counts_v, sum_of, trit_of};
ghost use Rattle.trits.specs.Planes.{trit_at, Row, Reads};
ghost use Rattle.trits.specs.Refusal.{planes_refusal};
ghost use Rattle.packed.specs.Packed.{packed_row};
ghost use Rattle.verdict.specs.Verdict.{times_key};
ghost use Rattle.held_key.specs.Held.{held_key};
ghost use Rattle.check_tests.specs.Check.{held_counts};
ghost use Rattle.checker.specs.Steps.{ForTakeRow, ForTakeRows, ForTakeByTable, ForTakePackedRows, more_counts, add_counts};
ghost use Rattle.checker.specs.Steps.{ForWeigh, ForWeighMade, ForWeighPacked};

use held_key::key::held_row;
use held_key::state::{BegunKey, Held};
use trits::{Counts, Planes};

// Row i of the key, times a trit, is taken from the word.
fn take_row(held: Held, key: Planes, i: usize, t: u8, work_ones: &mut [u64], work_twos: &mut [u64])
    requires { ForTakeRow held key.ones.now key.twos.now i t work_ones.old work_twos.old }
    ensures { Reads work_ones.new work_twos.new (length work_ones.old)
        (zip_v sub_t (trit_at work_ones.old work_twos.old)
        (zip_v mul_t (λ (q : ℕ). trit_of t) (held_key held key.entry.ones.now key.entry.twos.now i))) }
{
    if t == 0 {
        return;
    }
    let row = Planes {
        ones: held_row(held, key.ones, i),
        twos: held_row(held, key.twos, i),
    };
    if t == 1 {
        rows::sub_row(work_ones, work_twos, row);
    } else {
        rows::add_row(work_ones, work_twos, row);
    }
}

// Each row of the key, times its trit of s in planes, is taken from the word.
fn take_rows(held: Held, key: Planes, s: Planes, work_ones: &mut [u64], work_twos: &mut [u64])
    requires { ForTakeRows held key.ones.now key.twos.now s.ones.now s.twos.now work_ones.old work_twos.old }
    ensures { Reads work_ones.new work_twos.new (length work_ones.old)
        (zip_v sub_t (trit_at work_ones.old work_twos.old)
        (times_key held.k (held_key held key.entry.ones.now key.entry.twos.now) (trit_at s.entry.ones.now s.entry.twos.now))) }
{
    // all rows are stored
    for i in 0..held.rows as usize {
        let t = planes::places::trit_at(s, i);
        take_row(held, key, i, t, work_ones, work_twos);
    }
}

// One trit more is counted.
fn count_trit(counts: Counts, t: u8) -> Counts
    requires { (sum_of counts ≤ 16384) × (t < 3) }
    ensures { result ≡ more_counts counts (trit_of t) }
{
    Counts {
        ones: counts.ones + u64::from(t % 2), // 1 alone is odd
        twos: counts.twos + u64::from(t / 2),
    }
}

// Each row of the key, times its trit of a packed s, is taken from the word; the ones and twos of s.
fn take_by_table(
    held: Held,
    key: Planes,
    s: &[u8],
    work_ones: &mut [u64],
    work_twos: &mut [u64],
    table: &[u8; 1215],
) -> Counts
    requires { ForTakeByTable held key.ones.now key.twos.now s.now work_ones.old work_twos.old table.now }
    ensures value { result ≡ counts_v (packed_row s.now) held.k }
    ensures reads { Reads work_ones.new work_twos.new (length work_ones.old)
        (zip_v sub_t (trit_at work_ones.old work_twos.old)
        (times_key held.k (held_key held key.entry.ones.now key.entry.twos.now) (packed_row s.now))) }
{
    let mut counts = Counts::default();
    // all rows are stored
    for i in 0..held.rows as usize {
        let t = packing::table::trit(table, s[i / 5], i % 5);
        counts = count_trit(counts, t);
        take_row(held, key, i, t, work_ones, work_twos);
    }
    counts
}

// The same; the byte table is made once.
fn take_packed_rows(
    held: Held,
    key: Planes,
    s: &[u8],
    work_ones: &mut [u64],
    work_twos: &mut [u64],
) -> Counts
    requires { ForTakePackedRows held key.ones.now key.twos.now s.now work_ones.old work_twos.old }
    ensures value { result ≡ counts_v (packed_row s.now) held.k }
    ensures reads { Reads work_ones.new work_twos.new (length work_ones.old)
        (zip_v sub_t (trit_at work_ones.old work_twos.old)
        (times_key held.k (held_key held key.entry.ones.now key.entry.twos.now) (packed_row s.now))) }
{
    let table = packing::table::byte_table();
    take_by_table(held, key, s, work_ones, work_twos, &table)
}

// The ones and twos of two rows together.
fn add_counts(first: Counts, last: Counts) -> Counts
    requires { (sum_of first ≤ 16384) × (sum_of last ≤ 16384) }
    ensures { result ≡ add_counts first last }
{
    Counts {
        ones: first.ones + last.ones,
        twos: first.twos + last.twos,
    }
}

// Planes that passed a test can be read. Nothing is done: the ranges of words are known here, where the planes are two slices.
fn readable(ones: &[u64], twos: &[u64])
    ensures { (rows m : ℕ) → planes_refusal ones.now twos.now rows m ≡ 0 → length twos.now ≡ length ones.now → Row ones.now twos.now }
{}

// The ones and twos of the full word of y and s in planes; the working space holds its first part.
pub fn weigh(
    begun: BegunKey,
    key: Planes,
    y: Planes,
    s: Planes,
    work_ones: &mut [u64],
    work_twos: &mut [u64],
) -> Counts
    requires { ForWeigh begun.held key.ones.now key.twos.now y.ones.now y.twos.now s.ones.now s.twos.now
        work_ones.old work_twos.old }
    ensures { result ≡ held_counts begun.held key.entry.ones.now key.entry.twos.now (trit_at y.entry.ones.now y.entry.twos.now)
        (trit_at s.entry.ones.now s.entry.twos.now) }
{
    readable(key.ones, key.twos);
    readable(y.ones, y.twos);
    readable(s.ones, s.twos);
    planes::words::copy_words(work_ones, y.ones);
    planes::words::copy_words(work_twos, y.twos);
    take_rows(begun.held, key, s, work_ones, work_twos);
    let first = rows::count(Planes {
        ones: work_ones,
        twos: work_twos,
    });
    let last = rows::count(s);
    add_counts(first, last)
}

// The ones and twos of the full word of packed s and the y that the working space holds; its first part is left there.
pub fn weigh_made(
    begun: BegunKey,
    key: Planes,
    s: &[u8],
    work_ones: &mut [u64],
    work_twos: &mut [u64],
) -> Counts
    requires { ForWeighMade begun.held key.ones.now key.twos.now s.now work_ones.old work_twos.old }
    ensures { result ≡ held_counts begun.held key.entry.ones.now key.entry.twos.now (trit_at work_ones.old work_twos.old)
        (packed_row s.now) }
{
    readable(key.ones, key.twos);
    let taken = take_packed_rows(begun.held, key, s, work_ones, work_twos);
    let first = rows::count(Planes {
        ones: work_ones,
        twos: work_twos,
    });
    add_counts(first, taken)
}

// The ones and twos of the full word of packed y and s; the working space holds its first part.
pub fn weigh_packed(
    begun: BegunKey,
    key: Planes,
    y: &[u8],
    s: &[u8],
    work_ones: &mut [u64],
    work_twos: &mut [u64],
) -> Counts
    requires { ForWeighPacked begun.held key.ones.now key.twos.now y.now s.now work_ones.old work_twos.old }
    ensures { result ≡ held_counts begun.held key.entry.ones.now key.entry.twos.now (packed_row y.now)
        (packed_row s.now) }
{
    placing::packed_row::write_packed(begun.row_trits(), y, work_ones, work_twos);
    weigh_made(begun, key, s, work_ones, work_twos)
}
