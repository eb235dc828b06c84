// The word of one draw: placed, parted, solved, joined and weighed.
#![tactic(auto)]

pub mod word; // the word, made in the working space
