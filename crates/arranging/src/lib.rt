// The column rule of a build, on a matrix whose columns stand in the order: those without a pivot change places with the last.
#![tactic(auto)]

pub mod columns; // two places of the order, and two columns, exchanged
pub mod arrange; // the pivots of a block, and all of them
