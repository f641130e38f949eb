//! Reads a statement from the tokens of a body: which one it is, and each of its clauses.
#![tactic(auto)]

mod actions;
mod creates;
mod row_lists;
mod selects;
pub mod statements;
