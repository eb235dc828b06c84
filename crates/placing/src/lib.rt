// Rows written from bytes, several trits at once.
#![tactic(auto)]

pub mod masks; // the five trits of a byte as bits of both planes
pub mod writer; // a row that is being written
pub mod packed_row; // packed bytes, six at a time
pub mod stream; // a stream, byte by byte
