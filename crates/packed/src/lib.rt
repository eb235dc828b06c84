#![tactic(auto)]

// Trits packed five to a byte, and trits of a byte stream: definitions and laws, no code.
