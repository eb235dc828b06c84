// The two calls of the editor's half: what they are lent and answer, by definitions, and the tests that both make.
#![tactic(auto)]

pub mod lent; // what the calls are lent
pub mod order; // the test of an order
pub mod tests; // the lengths and the contents of a secret
pub mod work; // the working space at its end
