//! What the items of a query give for rows by themselves: a column for each item.
ghost use Rattle.std.specs.Prelude.{◌≡◌, ◌<◌, IfOk, length, map};
ghost use Rattle.std.specs.List.{All};
ghost use Rattle.pj_expr.specs.Fits.{FitsExpr};
ghost use Rattle.pj_group.specs.Indexes.{FitsRow, item_column, outputs_of, chosen};

use pj_block::eval_at;
use pj_expr::{Expr, Item};
use pj_value::{Column, NoMemory, Rows};
use std::alloc::Global;

/// What the items, at least one, give for the rows at these indexes.
pub(crate) fn outputs(
    alloc: Global,
    items: &[Item],
    rows: &Rows,
    indexes: &[usize],
) -> Result<Rows, NoMemory>
    requires some { 0 < length items.now }
    requires fits { All (FitsRow rows.now.kinds) items.now }
    requires within { All (λ at. at < length rows.now.rows) indexes.now }
    ensures { IfOk result (λ r. r ≡ outputs_of (chosen rows.now indexes.now) items.now) }
{
    let columns = output_columns(alloc, items, rows, indexes)?;
    let outputs = Rows::from_columns(alloc, columns)?;
    Ok(outputs)
}

/// A column for each item, over the rows at these indexes.
fn output_columns(
    alloc: Global,
    items: &[Item],
    rows: &Rows,
    indexes: &[usize],
) -> Result<Vec<Column>, NoMemory>
    requires fits { All (FitsRow rows.now.kinds) items.now }
    requires within { All (λ at. at < length rows.now.rows) indexes.now }
    ensures { IfOk result (λ cs. cs.items ≡ map (item_column (chosen rows.now indexes.now)) items.now) }
{
    let mut columns = Vec::with_capacity(alloc, items.len())?;
    for item in items {
        columns.push(output_column(alloc, item, rows, indexes)?)?;
    }
    Ok(columns)
}

/// The column of an item, over the rows at these indexes.
fn output_column(
    alloc: Global,
    item: &Item,
    rows: &Rows,
    indexes: &[usize],
) -> Result<Column, NoMemory>
    requires fits { FitsRow rows.now.kinds item.now }
    requires within { All (λ at. at < length rows.now.rows) indexes.now }
    ensures { IfOk result (λ c. c ≡ item_column (chosen rows.now indexes.now) item.now) }
{
    match item {
        Item::Plain(expr) => evaluated(alloc, expr, rows, indexes),
        Item::Agg(_) => unreachable!(),
    }
}

/// The values of an expression for the rows at these indexes. No column is copied that it doesn't use.
fn evaluated(alloc: Global, expr: &Expr, rows: &Rows, indexes: &[usize]) -> Result<Column, NoMemory>
    requires fits { FitsExpr rows.now.kinds expr.now }
    requires within { All (λ at. at < length rows.now.rows) indexes.now }
    ensures { IfOk result (λ c. c ≡ item_column (chosen rows.now indexes.now) (Item.Plain expr.now)) }
{
    let column = eval_at(alloc, expr, rows, indexes)?;
    Ok(column)
}
