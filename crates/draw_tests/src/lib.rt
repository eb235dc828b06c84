// The tests of one draw, of what the call was lent.
#![tactic(auto)]

pub mod tests; // lengths and contents
