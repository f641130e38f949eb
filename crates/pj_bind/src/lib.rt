//! Binding: a statement's names become numbers, and its rows get a value for each column, or it is refused.
#![tactic(auto)]

mod binding;
mod built;
mod filling;
mod laws;
mod meaning;
mod names;
mod queries;
mod tables;
pub mod types;

pub use binding::{BindFault, bind};
pub use laws::{
    bound_or_refused, bound_queries_fit, bound_tables_fit, each_is_first, no_bound_is_refused,
    one_bound, one_refusal,
};
