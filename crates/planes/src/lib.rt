// Two planes of 64-bit words: one trit of a row, words copied and handed out, and the tests for 3 and 4.
#![tactic(auto)]

pub mod places; // one trit of a row
pub mod words; // words copied, zeroed, written, and handed out as a part
pub mod faults; // the tests of planes
