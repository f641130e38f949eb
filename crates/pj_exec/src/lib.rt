//! SELECT over the parts of a table.
#![tactic(auto)]

mod fault;
mod scan;
mod select;

pub use fault::SelectFault;
pub use select::run_select;
