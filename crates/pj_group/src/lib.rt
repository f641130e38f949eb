//! Answers of queries over rows that are kept by columns, a column at a time.
#![tactic(auto)]

mod counts;
mod dense;
mod forms;
mod groups;
mod held;
mod indexes;
mod items;
mod keyed;
mod keys;
mod least;
mod lines;
mod numbers;
mod selection;
mod slots;

pub use groups::Groups;
pub use selection::select;
