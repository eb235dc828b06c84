// The places of an order and the columns of a lowered matrix, walked one after another.
#![tactic(auto)]

pub mod places; // one place of a row
pub mod parts; // the parts of an order
pub mod known; // what the last part adds
pub mod walk; // the columns of the first part
