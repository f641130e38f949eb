//! Which rows satisfy a condition, for all rows at once.
ghost use Rattle.std.specs.Prelude.{◌≡◌, ◌<◌, true, IfOk, length, map};
ghost use Rattle.std.specs.List.{filter, All};
ghost use Rattle.pj_value.specs.Rows.{rows_at};
ghost use Rattle.pj_expr.specs.Eval.{holds};
ghost use Rattle.pj_expr.specs.Fits.{alike, expr_kind, FitsCond};
ghost use Rattle.pj_block.specs.Kept.{kept_indexes};
ghost use Rattle.pj_block.specs.Blocks.{met_for, true_indexes};

use crate::block::Block;
use crate::compare::{both, compare_numbers, compare_texts, either, filled, opposite};
use crate::evaluation::{numbers_block, texts_block};
use pj_expr::{Cond, Expr, Op, kind_of_expr};
use pj_value::{Kind, NoMemory, Rows};
use std::alloc::Global;

/// Whether each row satisfies a condition.
pub fn holds_block(alloc: Global, cond: &Cond, rows: &Rows) -> Result<Vec<bool>, NoMemory>
    requires { FitsCond rows.now.kinds cond.now }
    ensures { IfOk result (λ held. held.items ≡ map (λ row. holds cond.now row) rows.now.rows) }
{
    match cond {
        Cond::All => filled(alloc, true, rows.len()),
        Cond::Compare(op, a, b) => compare_block(alloc, *op, a, b, rows),
        Cond::And(a, b) => {
            let held = holds_block(alloc, a.get(), rows)?;
            let other = holds_block(alloc, b.get(), rows)?;
            Ok(both(held, other.as_slice()))
        }
        Cond::Or(a, b) => {
            let held = holds_block(alloc, a.get(), rows)?;
            let other = holds_block(alloc, b.get(), rows)?;
            Ok(either(held, other.as_slice()))
        }
        Cond::Not(a) => {
            let held = holds_block(alloc, a.get(), rows)?;
            Ok(opposite(held))
        }
    }
}

/// Whether two expressions of one kind meet a comparison, for each row.
fn compare_block(
    alloc: Global,
    op: Op,
    a: &Expr,
    b: &Expr,
    rows: &Rows,
) -> Result<Vec<bool>, NoMemory>
    requires { alike (expr_kind rows.now.kinds a.now) (expr_kind rows.now.kinds b.now) ≡ true }
    ensures { IfOk result (λ met. met.items ≡ met_for op a.now b.now rows.now.rows) }
{
    match kind_of_expr(a, rows.kinds()) {
        Some(Kind::Num) => {
            let first = numbers_block(alloc, a, Block::All(rows))?;
            let second = numbers_block(alloc, b, Block::All(rows))?;
            compare_numbers(alloc, op, first, second, rows.len())
        }
        Some(Kind::Text) => {
            let first = texts_block(a, rows);
            let second = texts_block(b, rows);
            compare_texts(alloc, op, first, second, rows.len())
        }
        None => unreachable!(),
    }
}

/// The indexes of the rows that satisfy a condition, in their order: `Rows::gather` of them gives these rows.
pub fn kept(alloc: Global, cond: &Cond, rows: &Rows) -> Result<Vec<usize>, NoMemory>
    requires { FitsCond rows.now.kinds cond.now }
    ensures indexes { IfOk result (λ ps. ps.items ≡ kept_indexes cond.now rows.now.rows) }
    ensures within { IfOk result (λ ps. All (λ at. at < length rows.now.rows) ps.items) }
    ensures rows { IfOk result (λ p. rows_at rows.now.rows p.items ≡ filter (holds cond.now) rows.now.rows) }
{
    let held = holds_block(alloc, cond, rows)?;
    let indexes = indexes_of(alloc, held.as_slice())?;
    Ok(indexes)
}

/// The indexes at which there is a true.
fn indexes_of(alloc: Global, held: &[bool]) -> Result<Vec<usize>, NoMemory>
    ensures { IfOk result (λ ps. ps.items ≡ true_indexes held.now) }
{
    let mut indexes = Vec::new(alloc);
    for (at, holds) in held.iter().enumerate() {
        if *holds {
            indexes.push(at)?;
        }
    }
    Ok(indexes)
}
