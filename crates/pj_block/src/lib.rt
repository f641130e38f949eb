//! Expressions and conditions for blocks of rows: one pass over whole columns for each operator.
#![tactic(auto)]

mod block;
mod compare;
mod conditions;
mod evaluation;
mod numbers;

pub use conditions::{holds_block, kept};
pub use evaluation::{eval_at, eval_block};
