// The last pass of an elimination, block by block.
#![tactic(auto)]

pub mod raise; // the columns of a lowered matrix cleared above the diagonal
