// The filled work matrix of a build, brought to the form in which R stands in its last columns.
#![tactic(auto)]

pub mod arrange; // the columns in their order, and both passes
