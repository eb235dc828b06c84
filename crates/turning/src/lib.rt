// A block of 64 words of 64 bits, as 64 rows of 64 columns.
#![tactic(auto)]

pub mod turn; // rows become columns
