#![tactic(auto)]

// Theorems over both halves: what draws reach, and what the verdict means. There is no code here.
