// The rows of a key, written from columns of a matrix in planes.
#![tactic(auto)]

pub mod key; // row i is column r + i of the first r rows
