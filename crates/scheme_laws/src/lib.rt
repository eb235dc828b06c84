#![tactic(auto)]

// The laws of the build and of a draw: no code.
