// The columns of the work matrix of a build, gathered into an order of places.
#![tactic(auto)]

pub mod places; // an order of places, and the column of a place
pub mod gather_own; // the rows with their columns in an order's places
