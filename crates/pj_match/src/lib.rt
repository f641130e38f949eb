//! What a filter says of the key that rows are sorted by.
#![tactic(auto)]

mod bounds;
mod laws;
mod range;
mod sides;

pub use laws::rows_that_hold_are_within;
pub use range::range_of;
