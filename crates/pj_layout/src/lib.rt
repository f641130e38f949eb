//! Granules: the bytes of a column, both ways.
#![tactic(auto)]

mod blob;
mod laws;
mod numbers;
mod reading;
mod writing;

pub use blob::{Mark, Written, write_column};
pub use laws::{
    chunks_are_the_column, damage_is_exact, granules_stand_at_their_marks,
    granules_tell_their_values,
};
pub use reading::{GranuleFault, read_granule};
