//! Queries over the columns that they use alone.
#![tactic(auto)]

mod laws;
mod narrowing;
mod uses;

pub use laws::{columns_are_there, narrowed_queries_answer_alike};
pub use narrowing::narrowed;
pub use uses::columns_of;
