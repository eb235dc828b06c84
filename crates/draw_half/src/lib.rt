// One half of a draw.
#![tactic(auto)]

pub mod first; // the first part, gathered and lowered
pub mod halves; // V and U
pub mod lent; // what a half is lent
