// The pairs of a draw, in rows of a grid: the syndrome placed, the halves parted and joined, the word written.
#![tactic(auto)]

pub mod halves; // halves of a word in secret places, parted and joined
pub mod places; // secret places in two rows: a syndrome put there, a word read from there
