// A matrix held in two planes, rows of as many words each, one after another: its rows and its places.
#![tactic(auto, using(trits::proofs::Matrix::row_le, crate::proofs::Cells::row_in_ones, crate::proofs::Cells::row_in_twos))]

pub mod places; // one place of a row
pub mod one_row; // one row: lent, made 0, made a copy of a lent row, negated
pub mod operations; // operations on trits, sixty-four at a time
pub mod two_rows; // two rows of one matrix: exchanged, added, subtracted, one taken from the other, and their dot product
pub mod sums; // rows that become copies, sums and differences of other rows
pub mod products; // a row times a lent row, place by place
pub mod weights; // the weight of a row and of two rows
