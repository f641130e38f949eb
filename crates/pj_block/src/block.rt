//! A block: rows that an expression is computed for, and their values in one column.
ghost use Rattle.std.specs.Prelude.{◌≡◌, ◌<◌, IfOk, length, map, slice_index_or};
ghost use Rattle.std.specs.List.{All};
ghost use Rattle.pj_value.specs.declared.value.Kind.TheVariants as kinds;
ghost use Rattle.pj_value.specs.Rows.{HaveKinds};
ghost use Rattle.pj_block.specs.Blocks.{block_kinds, block_rows, IsWithin, numbers_of, numbers_for};
ghost use Rattle.pj_expr.specs.declared.expr.Expr.TheVariants as exprs;
ghost use Rattle.pj_expr.specs.Eval.{eval};
ghost use Rattle.pj_expr.specs.Fits.{expr_kind};

use crate::numbers::Numbers;
use pj_value::{Column, Kind, NoMemory, Rows};
use std::alloc::Global;

/// Rows that an expression is computed for.
#[derive(Clone, Copy)]
pub(crate) enum Block<'a> {
    /// All of them, whose columns are lent.
    All(&'a Rows),
    /// Those at these indexes, in this order. Only a column that is asked for is copied.
    At(&'a Rows, &'a [usize]),
}

impl<'a> Block<'a> {
    /// The kinds of the columns.
    pub(crate) fn kinds(self) -> &'a [Kind]
        requires { IsWithin self }
        ensures kinds { result.now ≡ block_kinds self.entry }
        ensures shape { HaveKinds (block_kinds self.entry) (block_rows self.entry) }
    {
        match self {
            Block::All(rows) => rows.kinds(),
            Block::At(rows, _) => rows.kinds(),
        }
    }

    /// How many rows there are.
    pub(crate) fn len(self) -> usize
        ensures { result ≡ length (block_rows self.entry) }
    {
        match self {
            Block::All(rows) => rows.len(),
            Block::At(_, indexes) => indexes.len(),
        }
    }

    /// The numbers of a column.
    pub(crate) fn numbers(self, alloc: Global, column: usize) -> Result<Numbers<'a>, NoMemory>
        requires within { IsWithin self }
        requires kind { expr_kind (block_kinds self) (exprs.Column column) ≡ Some kinds.Num }
        ensures { IfOk result
            (λ ns. numbers_of (length (block_rows self.entry)) ns
            ≡ numbers_for (exprs.Column column) (block_rows self.entry)) }
    {
        match self {
            Block::All(rows) => Ok(Numbers::Lent(numbers_in(rows, column))),
            Block::At(rows, indexes) => {
                let found = numbers_at(alloc, numbers_in(rows, column), indexes)?;
                Ok(Numbers::Own(found))
            }
        }
    }

    /// A copy of a column.
    pub(crate) fn column(self, alloc: Global, column: usize) -> Result<Column, NoMemory>
        requires within { IsWithin self }
        requires there { column < length (block_kinds self) }
        ensures kind { IfOk result (λ c. c.kind ≡ slice_index_or (block_kinds self.entry) column kinds.Num) }
        ensures values { IfOk result
            (λ c. c.values ≡ map (λ row. eval (exprs.Column column) row) (block_rows self.entry)) }
    {
        match self {
            Block::All(rows) => {
                let copy = rows.column(column).duplicate(alloc)?;
                Ok(copy)
            }
            Block::At(rows, indexes) => {
                let copy = rows.column(column).gather(alloc, indexes)?;
                Ok(copy)
            }
        }
    }
}

/// The numbers of a column of rows, lent.
fn numbers_in(rows: &Rows, column: usize) -> &[u64]
    requires { expr_kind rows.now.kinds (exprs.Column column) ≡ Some kinds.Num }
    ensures { result.now ≡ numbers_for (exprs.Column column) rows.now.rows }
{
    match rows.column(column).numbers() {
        Some(numbers) => numbers,
        None => unreachable!(),
    }
}

/// The numbers at these indexes.
fn numbers_at(alloc: Global, numbers: &[u64], indexes: &[usize]) -> Result<Vec<u64>, NoMemory>
    requires { All (λ at. at < length numbers.now) indexes.now }
    ensures { IfOk result (λ ns. ns.items ≡ map (λ at. slice_index_or numbers.now at 0) indexes.now) }
{
    let mut found = Vec::with_capacity(alloc, indexes.len())?;
    for at in indexes {
        found.push(numbers[*at])?;
    }
    Ok(found)
}
