//! The sparse index of a sorted list of rows: the first key of each granule, and the last key of all.
#![tactic(auto)]

mod keys;
mod laws;
mod selection;

pub use keys::{KeyMarks, KeyRange, Span};
pub use laws::no_key_is_left_out;
pub use selection::select;
