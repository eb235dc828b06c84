// Row operations of an elimination, on a matrix held in two planes.
#![tactic(auto, using(grid::proofs::Cells::row_in_ones, grid::proofs::Cells::row_in_twos))]

pub mod step; // a pivot made 1, and its column cleared in other rows
