//! The values of expressions for the rows that a filter keeps, and for no others.
ghost use Rattle.std.specs.Prelude.{◌≡◌, ◌<◌, IfOk, length, map, slice_index_or};
ghost use Rattle.std.specs.List.{All, filter};
ghost use Rattle.pj_value.specs.Values.{value_of};
ghost use Rattle.pj_value.specs.Rows.{rows_at};
ghost use Rattle.pj_value.specs.declared.value.Value.TheVariants as values;
ghost use Rattle.pj_expr.specs.Eval.{holds};
ghost use Rattle.pj_expr.specs.Fits.{FitsCond, FitsExpr};
ghost use Rattle.pj_group.specs.Indexes.{item_column, chosen};
ghost use Rattle.pj_group.specs.Dense.{dense_column, dense_values, IsKept};

use crate::indexes::{indexes_kept, keeps_all};
use pj_block::eval_at;
use pj_expr::{Cond, Expr, Item};
use pj_value::{Cell, Column, NoMemory, Rows};
use std::alloc::Global;

/// A column of the rows that are kept: one of the table, lent where all rows are, or one that was computed.
#[derive(Drop)]
pub(crate) enum Dense<'a> {
    Lent(&'a Column),
    Own(Column),
}

/// The rows that a filter keeps, by their indexes.
#[derive(Drop)]
pub(crate) struct Kept {
    pub(crate) indexes: Vec<usize>,
    /// Whether these are the indexes of all rows.
    all: bool,
}

/// The rows that satisfy a filter.
pub(crate) fn kept_rows(alloc: Global, cond: &Cond, rows: &Rows) -> Result<Kept, NoMemory>
    requires { FitsCond rows.now.kinds cond.now }
    ensures kept { IfOk result (λ k. IsKept rows.now.rows k) }
    ensures rows { IfOk result
        (λ k. rows_at rows.now.rows k.indexes.items ≡ filter (holds cond.now) rows.now.rows) }
{
    let indexes = indexes_kept(alloc, cond, rows)?;
    Ok(Kept {
        indexes,
        all: keeps_all(cond),
    })
}

/// The values of an expression for the rows that are kept. A column of the table is lent where all rows are.
pub(crate) fn column_for<'a>(
    alloc: Global,
    expr: &Expr,
    rows: &'a Rows,
    kept: &Kept,
) -> Result<Dense<'a>, NoMemory>
    requires fits { FitsExpr rows.now.kinds expr.now }
    requires kept { IsKept rows.now.rows kept.now }
    ensures { IfOk result
        (λ d. dense_column d ≡ item_column (chosen rows.now kept.now.indexes.items) (Item.Plain expr.now)) }
{
    match expr {
        Expr::Column(at) if kept.all => Ok(Dense::Lent(rows.column(*at))),
        _ => Ok(Dense::Own(eval_at(alloc, expr, rows, kept.indexes.as_slice())?)),
    }
}

/// The column.
pub(crate) fn as_column<'a>(dense: &'a Dense<'_>) -> &'a Column
    ensures { result.now ≡ dense_column dense.now }
{
    match dense {
        Dense::Lent(column) => column,
        Dense::Own(column) => column,
    }
}

/// The value of a row, and the number 0 where there is none.
pub(crate) fn cell_at<'a>(dense: &'a Dense<'_>, at: usize) -> Cell<'a>
    ensures { value_of result ≡ slice_index_or (dense_values dense.now) at (values.Num 0) }
{
    as_column(dense).cell_or_zero(at)
}
