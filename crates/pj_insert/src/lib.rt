//! Reads an INSERT from the bytes of its body, without a list of its tokens.
#![tactic(auto)]

mod inserts;

pub use inserts::read_insert;
