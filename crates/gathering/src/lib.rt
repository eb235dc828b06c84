// The columns of a matrix gathered in another order, 64 rows at a time.
#![tactic(auto, using(trits::proofs::Matrix::row_le))]

pub mod gather; // the rows become those of a lent matrix with its columns in an order's places
pub mod own; // the columns of a plane's own rows
