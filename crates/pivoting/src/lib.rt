// The pivots of a block, one after another.
#![tactic(auto)]

pub mod search; // the row of the next pivot
pub mod pivot; // one pivot more, and a block of them
