// One line of text about a held key: what it makes of the key, and what it prints.
#![tactic(auto)]

pub mod offer; // digit fields as planes of words
pub mod handle; // one line
