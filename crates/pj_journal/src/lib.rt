//! The history of a server: its entries, the catalog and the rows that they leave, and the journal that keeps
//! it.
#![tactic(auto)]

mod catalog;
mod entry;
mod journal;
mod laws;
pub mod types;

pub use catalog::TABLES;
pub use entry::{Actor, Entry, What};
pub use journal::{Journal, MoveFault};
pub use laws::{parts_are_of_blocks, parts_hold_the_rows};
