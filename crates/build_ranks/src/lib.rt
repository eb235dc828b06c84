// The ranks of a secret's two matrices.
#![tactic(auto)]

pub mod ranks; // 9 and 10
