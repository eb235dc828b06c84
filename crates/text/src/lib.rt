// Fields of a line of text: numbers and digits read, the three forms, the answer line written.
#![tactic(auto)]

pub mod fields; // numbers and digit fields
pub mod forms; // the three forms of a line
pub mod digits; // the planes of a digit field
pub mod answers; // the lines that are printed
