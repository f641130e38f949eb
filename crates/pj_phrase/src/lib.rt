//! Reads what statements are made of, from the tokens of a body: single tokens, lists of names, settings, and
//! values with their conditions. Each reader gives what it read and the tokens that are left.
#![tactic(auto)]

pub mod settings;
pub mod tokens;
pub mod values;
