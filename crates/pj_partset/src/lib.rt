//! The live parts of a table, and the snapshots that keep parts.
#![tactic(auto)]

mod list;
mod set;
mod snapshot;

pub use set::{PartSet, Swap};
pub use snapshot::Snapshot;
