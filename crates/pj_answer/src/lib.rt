//! Right answers of a query over rows, and a plain program that gives one.
#![tactic(auto)]

mod answers;
mod calls;
mod groups;
mod laws;
mod order;
mod rows;

pub use answers::answer;
pub use laws::{answers_ignore_the_order, distinct_rows_stand_once, same_rows_are_equal};
pub use rows::item_kinds;
