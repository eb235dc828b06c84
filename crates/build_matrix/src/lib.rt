// The secret matrix of a build, filled into the work matrix.
#![tactic(auto)]

pub mod halves; // half-rows of it
pub mod fill; // the whole of it
