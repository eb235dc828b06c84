// The key that a secret of full ranks makes.
#![tactic(auto)]

pub mod make; // the key of a filled work matrix
pub mod order; // the copy of an order of places
pub mod release; // the work matrix, and the key
