#![tactic(auto)]

// The verdict on y and s under a key, over vectors: definitions and laws, no code.
