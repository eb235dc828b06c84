// The editor's half: the build of a key and one draw.
#![tactic(auto)]

pub mod sizes; // the sizes, and their test
