//! The values of an expression for a block of rows.
ghost use Rattle.std.specs.Prelude.{◌≡◌, ◌<◌, IfOk, length, map};
ghost use Rattle.std.specs.List.{All};
ghost use Rattle.pj_value.specs.Rows.{rows_at};
ghost use Rattle.pj_value.specs.declared.value.Kind.TheVariants as kinds;
ghost use Rattle.pj_expr.specs.Eval.{eval};
ghost use Rattle.pj_expr.specs.Fits.{expr_kind, FitsExpr};
ghost use Rattle.pj_block.specs.Blocks.{numbers_of, texts_of, numbers_for, texts_for};
ghost use Rattle.pj_block.specs.Blocks.{block_kinds, block_rows, IsWithin};

use crate::block::Block;
use crate::compare::{Texts, repeated};
use crate::numbers::{Arith, Numbers, Part, computed, divided, into_vec};
use pj_expr::{Expr, kind_of_expr};
use pj_value::{Column, Kind, NoMemory, Rows};
use std::alloc::Global;

/// The values of an expression for all rows. A literal is kept as one value until the end.
pub fn eval_block(alloc: Global, expr: &Expr, rows: &Rows) -> Result<Column, NoMemory>
    requires { FitsExpr rows.now.kinds expr.now }
    ensures kind { IfOk result (λ c. Some c.kind ≡ expr_kind rows.now.kinds expr.now) }
    ensures values { IfOk result (λ c. c.values ≡ map (λ row. eval expr.now row) rows.now.rows) }
{
    evaluated(alloc, expr, Block::All(rows))
}

/// The values of an expression for the rows at these indexes. Of the columns those alone are copied that it
/// uses, and of each the values at these indexes.
pub fn eval_at(
    alloc: Global,
    expr: &Expr,
    rows: &Rows,
    indexes: &[usize],
) -> Result<Column, NoMemory>
    requires fits { FitsExpr rows.now.kinds expr.now }
    requires within { All (λ at. at < length rows.now.rows) indexes.now }
    ensures kind { IfOk result (λ c. Some c.kind ≡ expr_kind rows.now.kinds expr.now) }
    ensures values { IfOk result
        (λ c. c.values ≡ map (λ row. eval expr.now row) (rows_at rows.now.rows indexes.now)) }
{
    evaluated(alloc, expr, Block::At(rows, indexes))
}

/// The values of an expression for the rows of a block.
fn evaluated(alloc: Global, expr: &Expr, block: Block<'_>) -> Result<Column, NoMemory>
    requires fits { FitsExpr (block_kinds block) expr.now }
    requires within { IsWithin block }
    ensures kind { IfOk result (λ c. Some c.kind ≡ expr_kind (block_kinds block.entry) expr.now) }
    ensures values { IfOk result (λ c. c.values ≡ map (λ row. eval expr.now row) (block_rows block.entry)) }
{
    match kind_of_expr(expr, block.kinds()) {
        Some(Kind::Num) => {
            let numbers = numbers_block(alloc, expr, block)?;
            Ok(Column::from_numbers(into_vec(alloc, numbers, block.len())?))
        }
        Some(Kind::Text) => text_column(alloc, expr, block),
        None => unreachable!(),
    }
}

/// The numbers of an expression that is a number.
pub(crate) fn numbers_block<'a>(
    alloc: Global,
    expr: &Expr,
    block: Block<'a>,
) -> Result<Numbers<'a>, NoMemory>
    requires kind { expr_kind (block_kinds block) expr.now ≡ Some kinds.Num }
    requires within { IsWithin block }
    ensures { IfOk result
        (λ ns. numbers_of (length (block_rows block.entry)) ns
        ≡ numbers_for expr.now (block_rows block.entry)) }
{
    match expr {
        Expr::Column(at) => block.numbers(alloc, *at),
        Expr::Num(number) => Ok(Numbers::Same(*number)),
        Expr::Text(_) => unreachable!(),
        Expr::Add(a, b) => {
            let first = numbers_block(alloc, a.get(), block)?;
            let second = numbers_block(alloc, b.get(), block)?;
            computed(alloc, Arith::Add, first, second, block.len())
        }
        Expr::Mul(a, b) => {
            let first = numbers_block(alloc, a.get(), block)?;
            let second = numbers_block(alloc, b.get(), block)?;
            computed(alloc, Arith::Mul, first, second, block.len())
        }
        Expr::IntDiv(a, divisor) => {
            let numbers = numbers_block(alloc, a.get(), block)?;
            divided(alloc, Part::Quotient, numbers, *divisor)
        }
        Expr::Mod(a, divisor) => {
            let numbers = numbers_block(alloc, a.get(), block)?;
            divided(alloc, Part::Remainder, numbers, *divisor)
        }
    }
}

/// The values of an expression that is a text: those of a column, or copies of a literal.
fn text_column(alloc: Global, expr: &Expr, block: Block<'_>) -> Result<Column, NoMemory>
    requires kind { expr_kind (block_kinds block) expr.now ≡ Some kinds.Text }
    requires within { IsWithin block }
    ensures kind { IfOk result (λ c. c.kind ≡ kinds.Text) }
    ensures values { IfOk result (λ c. c.values ≡ map (λ row. eval expr.now row) (block_rows block.entry)) }
{
    match expr {
        Expr::Column(at) => {
            let column = block.column(alloc, *at)?;
            Ok(column)
        }
        Expr::Text(text) => Ok(Column::from_texts(repeated(alloc, text, block.len())?)),
        Expr::Num(_) => unreachable!(),
        Expr::Add(_, _) => unreachable!(),
        Expr::Mul(_, _) => unreachable!(),
        Expr::IntDiv(_, _) => unreachable!(),
        Expr::Mod(_, _) => unreachable!(),
    }
}

/// The texts of an expression that is a text, for all rows: those of a column, or a literal.
pub(crate) fn texts_block<'a>(expr: &'a Expr, rows: &'a Rows) -> Texts<'a>
    requires { expr_kind rows.now.kinds expr.now ≡ Some kinds.Text }
    ensures { texts_of (length rows.now.rows) result ≡ texts_for expr.now rows.now.rows }
{
    match expr {
        Expr::Column(at) => match rows.column(*at).texts() {
            Some(texts) => Texts::Each(texts),
            None => unreachable!(),
        },
        Expr::Text(text) => Texts::Same(text),
        Expr::Num(_) => unreachable!(),
        Expr::Add(_, _) => unreachable!(),
        Expr::Mul(_, _) => unreachable!(),
        Expr::IntDiv(_, _) => unreachable!(),
        Expr::Mod(_, _) => unreachable!(),
    }
}
