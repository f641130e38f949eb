//! Reads rows of a part: of a span of granules, in some of the columns.
#![tactic(auto)]

mod columns;
mod fault;
mod rows;

pub use fault::ReadPartFault;
pub use rows::read_rows;
