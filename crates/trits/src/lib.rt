// Trits, vectors and rows in two planes by definitions and laws, and the refusals: the lowest layer.
#![tactic(auto)]

pub mod refusal; // the refusals and their numbers

// How many places of a row hold 1, and how many hold 2.
#[derive(Clone, Copy, Default, PartialEq, Eq)]
pub struct Counts {
    pub ones: u64,
    pub twos: u64,
}

// Two planes that are lent together: one row, or the rows of a matrix one after another.
#[derive(Clone, Copy)]
pub struct Planes<'a> {
    pub ones: &'a [u64],
    pub twos: &'a [u64],
}
