// A block of up to twelve pivots, whose rows stand after those of the matrix.
#![tactic(auto, using(grid::proofs::Cells::row_in_ones, grid::proofs::Cells::row_in_twos))]

pub mod block_rows; // where the block's rows stand, and rows cleared by them
