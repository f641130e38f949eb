//! Expressions over the columns of a row, conditions, queries and tables: what they are, what they fit and
//! what they mean.
#![tactic(auto)]

mod cond;
mod expr;
mod fits;
mod fitting;
mod query;
mod row;
mod table;

pub use cond::{Cond, Op};
pub use expr::Expr;
pub use fits::{fits_cond, fits_expr, kind_of_expr};
pub use fitting::{aggregates, fits_query, is_same_expr, keeps_groups, keeps_kinds};
pub use query::{AggCall, Item, OrderKey, Query};
pub use row::{eval_or_none, eval_row, holds_row, number_of};
pub use table::{ColumnDef, LightMode, Table};
