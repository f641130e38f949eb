//! The keys of ORDER BY, each as a column for all rows, by which rows are compared where they lie.
ghost use Rattle.std.specs.Prelude.{◌≡◌, IfOk, length, map, replicate, slice_index_or};
ghost use Rattle.std.specs.List.{All};
ghost use Rattle.pj_value.specs.Values.{value_of};
ghost use Rattle.pj_value.specs.declared.value.Value.TheVariants as values;
ghost use Rattle.pj_answer.specs.Answers.{turned};
ghost use Rattle.pj_expr.specs.Eval.{eval};
ghost use Rattle.pj_expr.specs.Fits.{FitsExpr};
ghost use Rattle.pj_group.specs.Indexes.{FitsRow, key_for, values_in, key_values, values_cmp, indexes_cmp};
ghost use Rattle.pj_group.specs.Lines.{keys_in_columns};

use pj_block::eval_block;
use pj_expr::{Expr, Item, OrderKey};
use pj_value::{Cell, Column, NoMemory, Rows, cell_cmp};
use std::alloc::Global;
use std::cmp::Ordering;

/// The values of a key: a column of the rows, lent, or one that was computed, or one value for so many rows.
#[derive(Drop)]
enum Values<'a> {
    Lent(&'a Column),
    Own(Column),
    Same(Cell<'a>, usize),
}

/// A key of ORDER BY with its values for all rows.
#[derive(Drop)]
pub(crate) struct Key<'a> {
    values: Values<'a>,
    descending: bool,
}

/// The keys of ORDER BY for all rows. A key that is a column or a literal takes no memory of its own.
pub(crate) fn keys_of<'a>(
    alloc: Global,
    keys: &'a [OrderKey],
    rows: &'a Rows,
) -> Result<Vec<Key<'a>>, NoMemory>
    requires { All (λ key. FitsRow rows.now.kinds key.item) keys.now }
    ensures { IfOk result (λ ks. map key_values ks.items ≡ map (key_for rows.now) keys.now) }
{
    let mut found = Vec::with_capacity(alloc, keys.len())?;
    for key in keys {
        found.push(key_of(alloc, key, rows)?)?;
    }
    Ok(found)
}

/// The keys of ORDER BY, whose values are in these columns.
pub(crate) fn lent_keys<'a>(
    alloc: Global,
    keys: &[OrderKey],
    columns: &'a [Column],
) -> Result<Vec<Key<'a>>, NoMemory>
    requires { length columns.now ≡ length keys.now }
    ensures { IfOk result (λ ks. map key_values ks.items ≡ keys_in_columns keys.now columns.now) }
{
    let mut found = Vec::with_capacity(alloc, keys.len())?;
    for at in 0..keys.len() {
        found.push(lent_key(&keys[at], &columns[at]))?;
    }
    Ok(found)
}

/// A key whose values are in this column.
fn lent_key<'a>(key: &OrderKey, column: &'a Column) -> Key<'a>
    ensures { key_values result ≡ record { descending = key.now.descending; values = column.now.values } }
{
    Key {
        values: Values::Lent(column),
        descending: key.descending,
    }
}

/// A key for all rows.
fn key_of<'a>(alloc: Global, key: &'a OrderKey, rows: &'a Rows) -> Result<Key<'a>, NoMemory>
    requires { FitsRow rows.now.kinds key.now.item }
    ensures { IfOk result (λ k. key_values k ≡ key_for rows.now key.now) }
{
    match &key.item {
        Item::Plain(expr) => Ok(Key {
            values: values_of(alloc, expr, rows)?,
            descending: key.descending,
        }),
        Item::Agg(_) => unreachable!(),
    }
}

/// The values of an expression for all rows.
fn values_of<'a>(alloc: Global, expr: &'a Expr, rows: &'a Rows) -> Result<Values<'a>, NoMemory>
    requires { FitsExpr rows.now.kinds expr.now }
    ensures { IfOk result (λ vs. values_in vs ≡ map (λ row. eval expr.now row) rows.now.rows) }
{
    match expr {
        Expr::Column(at) => Ok(Values::Lent(rows.column(*at))),
        Expr::Num(number) => Ok(Values::Same(Cell::Num(*number), rows.len())),
        Expr::Text(text) => Ok(Values::Same(Cell::Text(text), rows.len())),
        _ => Ok(Values::Own(eval_block(alloc, expr, rows)?)),
    }
}

/// How the rows at two indexes stand to each other: the first key in which they differ decides.
pub(crate) fn compare(keys: &[Key<'_>], a: usize, b: usize) -> Ordering
    ensures { result ≡ indexes_cmp (map key_values keys.now) a b }
{
    for key in keys {
        let order = compare_values(&key.values, a, b);
        match turn(key.descending, order) {
            Ordering::Equal => {}
            other => return other,
        }
    }
    Ordering::Equal
}

/// How the values of a key at two indexes stand to each other.
fn compare_values(values: &Values<'_>, a: usize, b: usize) -> Ordering
    ensures { result ≡ values_cmp (values_in values.now) a b }
{
    match values {
        Values::Lent(column) => compare_cells(column, a, b),
        Values::Own(column) => compare_cells(column, a, b),
        Values::Same(cell, len) => compare_same(*cell, *len, a, b),
    }
}

/// How the one value of so many rows stands to itself at two indexes. It is not looked at where both are
/// rows.
fn compare_same(cell: Cell<'_>, len: usize, a: usize, b: usize) -> Ordering
    ensures { result ≡ values_cmp (replicate len (value_of cell.entry)) a b }
{
    if a.max(b) < len {
        Ordering::Equal
    } else {
        cell_cmp(same_or_zero(cell, len, a), same_or_zero(cell, len, b))
    }
}

/// The one value of so many rows at an index, and the number 0 where there is no row.
fn same_or_zero(cell: Cell<'_>, len: usize, at: usize) -> Cell<'_>
    ensures { value_of result ≡ slice_index_or (replicate len (value_of cell.entry)) at (values.Num 0) }
{
    if at < len { cell } else { Cell::Num(0) }
}

/// How the values of a column at two indexes stand to each other.
fn compare_cells(column: &Column, a: usize, b: usize) -> Ordering
    ensures { result ≡ values_cmp column.now.values a b }
{
    cell_cmp(cell_or_zero(column, a), cell_or_zero(column, b))
}

/// The value at an index, lent, and the number 0 where there is none.
fn cell_or_zero(column: &Column, at: usize) -> Cell<'_>
    ensures { value_of result ≡ slice_index_or column.now.values at (values.Num 0) }
{
    if at < column.len() {
        column.cell(at)
    } else {
        Cell::Num(0)
    }
}

/// The order, turned round for DESC.
fn turn(descending: bool, order: Ordering) -> Ordering
    ensures { result ≡ turned descending order }
{
    if descending { order.reverse() } else { order }
}
