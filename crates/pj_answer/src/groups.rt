//! Groups by the values of GROUP BY. A plain program: each row's key is compared with those of all others.
ghost use Rattle.std.specs.Prelude.{◌≡◌, ◌<◌, [], IfOk, length, map, slice_index_or};
ghost use Rattle.std.specs.List.{All};
ghost use Rattle.pj_value.specs.Columns.{values_of};
ghost use Rattle.pj_expr.specs.Fits.{FitsExpr};
ghost use Rattle.pj_answer.specs.Answers.{same_row, key_of, groups_by};
ghost use Rattle.pj_answer.specs.Rows.{of_kinds};
ghost use Rattle.pj_answer.specs.Groups.{values_for, comes_again, last_indexes, indexes_like, group_like};

use pj_block::eval_block;
use pj_expr::Expr;
use pj_value::{Column, NoMemory, Rows, cell_cmp};
use std::alloc::Global;

/// The groups of rows by these values, at least one. Groups stand in the order of their last rows, and the
/// rows of each in the order that they had. It takes time quadratic in the number of rows.
pub(crate) fn groups_by(alloc: Global, exprs: &[Expr], held: &Rows) -> Result<Vec<Rows>, NoMemory>
    requires some { 0 < length exprs.now }
    requires fits { All (FitsExpr held.now.kinds) exprs.now }
    ensures { IfOk result (λ g. g.items ≡ map (of_kinds held.now.kinds) (groups_by exprs.now held.now.rows)) }
{
    let keys = keys_of(alloc, exprs, held)?;
    let last = last_indexes(alloc, &keys)?;
    let groups = groups_at(alloc, held, &keys, last.as_slice())?;
    Ok(groups)
}

/// The keys of rows: the values of these expressions, at least one, for each row.
fn keys_of(alloc: Global, exprs: &[Expr], held: &Rows) -> Result<Rows, NoMemory>
    requires some { 0 < length exprs.now }
    requires fits { All (FitsExpr held.now.kinds) exprs.now }
    ensures { IfOk result (λ keys. keys.rows ≡ map (key_of exprs.now) held.now.rows) }
{
    let columns = key_columns(alloc, exprs, held)?;
    let keys = Rows::from_columns(alloc, columns)?;
    Ok(keys)
}

/// For each expression, its values for all rows.
fn key_columns(alloc: Global, exprs: &[Expr], held: &Rows) -> Result<Vec<Column>, NoMemory>
    requires { All (FitsExpr held.now.kinds) exprs.now }
    ensures { IfOk result (λ cs. values_of cs.items ≡ map (values_for held.now.rows) exprs.now) }
{
    let mut columns = Vec::with_capacity(alloc, exprs.len())?;
    for expr in exprs {
        let column = eval_block(alloc, expr, held)?;
        columns.push(column)?;
    }
    Ok(columns)
}

/// For each index, the rows whose keys are the same as the key there.
fn groups_at(
    alloc: Global,
    held: &Rows,
    keys: &Rows,
    indexes: &[usize],
) -> Result<Vec<Rows>, NoMemory>
    requires keys { length keys.now.rows ≡ length held.now.rows }
    requires within { All (λ at. at < length keys.now.rows) indexes.now }
    ensures { IfOk result (λ gs. gs.items ≡ map (group_like held.now keys.now.rows) indexes.now) }
{
    let mut groups = Vec::with_capacity(alloc, indexes.len())?;
    for at in indexes {
        let group = group_at(alloc, held, keys, *at)?;
        groups.push(group)?;
    }
    Ok(groups)
}

/// The rows whose keys are the same as the key at an index.
fn group_at(alloc: Global, held: &Rows, keys: &Rows, at: usize) -> Result<Rows, NoMemory>
    requires keys { length keys.now.rows ≡ length held.now.rows }
    requires at { at < length keys.now.rows }
    ensures { IfOk result (λ group. group ≡ group_like held.now keys.now.rows at) }
{
    let indexes = indexes_like(alloc, keys, at)?;
    let group = held.gather(indexes.as_slice())?;
    Ok(group)
}

/// The indexes of the rows that don't come again.
fn last_indexes(alloc: Global, rows: &Rows) -> Result<Vec<usize>, NoMemory>
    ensures { IfOk result (λ ps. ps.items ≡ last_indexes rows.now.rows) }
{
    let mut indexes = Vec::new(alloc);
    for at in 0..rows.len() {
        let again = comes_again(rows, at);
        if !again {
            indexes.push(at)?;
        }
    }
    Ok(indexes)
}

/// Whether the row at an index comes again behind it.
fn comes_again(rows: &Rows, at: usize) -> bool
    requires { at < length rows.now.rows }
    ensures { result ≡ comes_again rows.now.rows at }
{
    let len = rows.len();
    for later in at + 1..len {
        let found = are_same(rows, at, later);
        if found {
            return true;
        }
    }
    false
}

/// The indexes of the rows that are the same as the row at an index.
fn indexes_like(alloc: Global, rows: &Rows, at: usize) -> Result<Vec<usize>, NoMemory>
    requires { at < length rows.now.rows }
    ensures { IfOk result (λ ps. ps.items ≡ indexes_like rows.now.rows at) }
{
    let mut indexes = Vec::new(alloc);
    for other in 0..rows.len() {
        let found = are_same(rows, at, other);
        if found {
            indexes.push(other)?;
        }
    }
    Ok(indexes)
}

/// Whether the rows at two indexes are the same.
fn are_same(rows: &Rows, a: usize, b: usize) -> bool
    requires first { a < length rows.now.rows }
    requires second { b < length rows.now.rows }
    ensures { result ≡ same_row (slice_index_or rows.now.rows a []) (slice_index_or rows.now.rows b []) }
{
    let kinds = rows.kinds();
    for column in 0..kinds.len() {
        let order = cell_cmp(rows.cell(a, column), rows.cell(b, column));
        if order.is_ne() {
            return false;
        }
    }
    true
}
