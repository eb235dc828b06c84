// Operations on whole rows, sixty-four trits at a time by masks on the two planes. The loops go over indices: of two planes
// that are written at once nothing is known after a zip, and these loops are to have no branch inside.
// A row that is written stays two slices: it is a stretch of each plane, and of a slice the length and the ranges of words are known with no clause.
#![tactic(auto)]

ghost use Rattle.std.specs.Prelude.{◌≡◌, ◌*◌, ◌≤◌, length};
ghost use Rattle.trits.specs.Trit.{add_t, sub_t, mul_t, neg_v, zip_v, dot_v, weight_v, counts_v, number};
ghost use Rattle.trits.specs.Planes.{trit_at, Row, Reads};
ghost use Rattle.rows.specs.Steps.{ForRowPair, ForDot};

use trits::{Counts, Planes};

// The source is added to the row.
pub fn add_row(ones: &mut [u64], twos: &mut [u64], src: Planes)
    requires { ForRowPair ones.old twos.old src.ones.now src.twos.now }
    ensures { Reads ones.new twos.new (length ones.old)
        (zip_v add_t (trit_at ones.old twos.old) (trit_at src.entry.ones.now src.entry.twos.now)) }
{
    for i in 0..ones.len() {
        let a = ones[i];
        let b = twos[i];
        let c = src.ones[i];
        let d = src.twos[i];
        let t = (a | d) ^ (b | c);
        ones[i] = (b | d) ^ t;
        twos[i] = (a | c) ^ t;
    }
}

// The source is subtracted from the row: with its planes exchanged it is its negative.
pub fn sub_row(ones: &mut [u64], twos: &mut [u64], src: Planes)
    requires { ForRowPair ones.old twos.old src.ones.now src.twos.now }
    ensures { Reads ones.new twos.new (length ones.old)
        (zip_v sub_t (trit_at ones.old twos.old) (trit_at src.entry.ones.now src.entry.twos.now)) }
{
    let negative = Planes {
        ones: src.twos,
        twos: src.ones,
    };
    add_row(ones, twos, negative);
}

// The row is multiplied by the source, place by place.
pub fn mul_row(ones: &mut [u64], twos: &mut [u64], src: Planes)
    requires { ForRowPair ones.old twos.old src.ones.now src.twos.now }
    ensures { Reads ones.new twos.new (length ones.old)
        (zip_v mul_t (trit_at ones.old twos.old) (trit_at src.entry.ones.now src.entry.twos.now)) }
{
    for i in 0..ones.len() {
        let a = ones[i];
        let b = twos[i];
        let c = src.ones[i];
        let d = src.twos[i];
        ones[i] = a & c | b & d;
        twos[i] = a & d | b & c;
    }
}

// The row becomes its negative: its planes are exchanged.
pub fn negate_row(ones: &mut [u64], twos: &mut [u64])
    requires { Row ones.old twos.old }
    ensures { Reads ones.new twos.new (length ones.old) (neg_v (trit_at ones.old twos.old)) }
{
    ones.swap_with_slice(twos);
}

// The sum of the products of two rows' trits, modulo 3, from the counts of the products that are 1 and that are 2.
pub fn dot(a: Planes, b: Planes) -> u8
    requires { ForDot a.ones.now a.twos.now b.ones.now b.twos.now }
    ensures { result ≡ number (dot_v (trit_at a.entry.ones.now a.entry.twos.now) (trit_at b.entry.ones.now b.entry.twos.now)
        (64 * length a.entry.ones.now)) }
{
    let Planes {
        ones: a_ones,
        twos: a_twos,
    } = a;
    let Planes {
        ones: b_ones,
        twos: b_twos,
    } = b;
    let mut ones: u64 = 0;
    let mut twos: u64 = 0;
    for i in 0..a_ones.len() {
        let same = a_ones[i] & b_ones[i] | a_twos[i] & b_twos[i];
        let other = a_ones[i] & b_twos[i] | a_twos[i] & b_ones[i];
        ones += u64::from(same.count_ones());
        twos += u64::from(other.count_ones());
    }
    ((ones + 2 * twos) % 3) as u8
}

// How many trits are not 0: the bits set in either plane, counted word by word.
pub fn weight(row: Planes) -> u64
    requires twos_len { length row.twos.now ≡ length row.ones.now }
    requires ones_len_bound { length row.ones.now ≤ 65536 }
    ensures { result ≡ weight_v (trit_at row.entry.ones.now row.entry.twos.now) (64 * length row.entry.ones.now) }
{
    let Planes { ones, twos } = row;
    let mut sum: u64 = 0;
    for i in 0..ones.len() {
        sum += u64::from((ones[i] | twos[i]).count_ones());
    }
    sum
}

// How many trits are 1, and how many are 2: the bits set in each plane, counted word by word.
pub fn count(row: Planes) -> Counts
    requires row { Row row.ones.now row.twos.now }
    requires ones_len_bound { length row.ones.now ≤ 65536 }
    ensures { result ≡ counts_v (trit_at row.entry.ones.now row.entry.twos.now) (64 * length row.entry.ones.now) }
{
    let Planes { ones, twos } = row;
    let mut in_ones: u64 = 0;
    let mut in_twos: u64 = 0;
    for i in 0..ones.len() {
        in_ones += u64::from(ones[i].count_ones());
        in_twos += u64::from(twos[i].count_ones());
    }
    Counts {
        ones: in_ones,
        twos: in_twos,
    }
}
