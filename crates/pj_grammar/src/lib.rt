//! What a statement is: the rules of docs/GRAMMAR.md over lexemes, how they are read from the left, and the
//! laws that no body is two statements and none has two indexes of an error.
#![tactic(auto)]

mod laws;
pub mod types;
mod value_rows;
pub mod words;

pub use laws::{one_error, one_statement, statement_or_error};
pub use value_rows::RowsSoFar;
