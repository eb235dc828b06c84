// The first pass of an elimination in the natural order of columns, block after block.
#![tactic(auto)]

pub mod lower; // a block, and all of them
