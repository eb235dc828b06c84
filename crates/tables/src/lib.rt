// Rows of a matrix in planes cleared at twelve columns at once, by tables of the combinations of a block's rows.
#![tactic(auto, using(grid::proofs::Cells::row_in_ones, grid::proofs::Cells::row_in_twos))]

pub mod entries; // the numbers of trits, and the entry that four of them stand for
pub mod tables; // the tables made, and rows cleared by them
