#![tactic(auto)]

// Matrices of trits: linear algebra over vectors, and elimination. So far definitions and laws.
