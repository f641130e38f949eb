//! Evaluation: what an expression takes over whole columns, and row by row.
ghost use Rattle.pj_expr.specs.Fits.{FitsExpr};

use crate::layer::{Layer, since};
use anyhow::bail;
use pj_block::eval_block;
use pj_expr::{Expr, eval_row, fits_expr};
use pj_value::{Cell, Column, Kind, NoMemory, PushFault, Rows, Value};
use sqlite_items::Boxed;
use std::alloc::Global;
use std::time::CpuClock;

/// How many rows the expression is evaluated for.
const ROWS: u64 = 1_000_000;

/// How often it is computed over whole columns. In the first turns the memory of the result is touched for
/// the first time, which takes longer than to compute it.
const TURNS: u32 = 5;

/// The sums of `a * 3 + b` over rows of two numbers, computed over whole columns, in the last of some turns,
/// and row by row, and how long each took.
pub fn timed<R: CpuClock>(rt: &R, alloc: Global) -> anyhow::Result<(Layer, Layer)> {
    let rows = two_columns(alloc)?;
    let expr = triple_and_other(alloc)?;
    if !fits_expr(&expr, rows.kinds()) {
        bail!("the expression doesn't fit");
    }
    Ok((
        by_block_at_last(rt, alloc, &expr, &rows)?,
        by_row(rt, &expr, &rows)?,
    ))
}

/// The last of some turns.
fn by_block_at_last<R: CpuClock>(
    rt: &R,
    alloc: Global,
    expr: &Expr,
    rows: &Rows,
) -> anyhow::Result<Layer>
    requires { FitsExpr rows.now.kinds expr.now }
{
    'turns: for _turn in 1..TURNS {
        by_block(rt, alloc, expr, rows)?;
    }
    by_block(rt, alloc, expr, rows)
}

fn by_block<R: CpuClock>(rt: &R, alloc: Global, expr: &Expr, rows: &Rows) -> anyhow::Result<Layer>
    requires { FitsExpr rows.now.kinds expr.now }
{
    let start = rt.thread_cpu_time()?;
    let column = eval_block(alloc, expr, rows);
    let took = since(rt, start)?;
    let mut layer = Layer::new("block");
    layer.add(sum(&column?), took);
    Ok(layer)
}

fn by_row<R: CpuClock>(rt: &R, expr: &Expr, rows: &Rows) -> anyhow::Result<Layer>
    requires { FitsExpr rows.now.kinds expr.now }
{
    let start = rt.thread_cpu_time()?;
    let total = sum_by_row(expr, rows);
    let took = since(rt, start)?;
    let mut layer = Layer::new("rows");
    layer.add(total, took);
    Ok(layer)
}

/// The sum of the values of the rows modulo 2^64, each computed on its own.
fn sum_by_row(expr: &Expr, rows: &Rows) -> u64
    requires { FitsExpr rows.now.kinds expr.now }
{
    let mut total: u64 = 0;
    'rows: for at in 0..rows.len() {
        total = total.wrapping_add(number_of(eval_row(expr, rows, at)));
    }
    total
}

/// The rows (0, 0), (1, 7919), (2, 2 * 7919) and so on.
fn two_columns(alloc: Global) -> Result<Rows, PushFault> {
    let mut rows = Rows::new(alloc, &[Kind::Num, Kind::Num])?;
    'rows: for number in 0..ROWS {
        rows.push(&[Value::Num(number), Value::Num(number.wrapping_mul(7919))])?;
    }
    Ok(rows)
}

/// `a * 3 + b`, of the first two columns.
fn triple_and_other(alloc: Global) -> Result<Expr, NoMemory> {
    let a = Boxed::new(alloc, Expr::Column(0))?;
    let three = Boxed::new(alloc, Expr::Num(3))?;
    let triple = Boxed::new(alloc, Expr::Mul(a, three))?;
    let b = Boxed::new(alloc, Expr::Column(1))?;
    Ok(Expr::Add(triple, b))
}

/// The sum of a column's numbers modulo 2^64, 0 for texts.
fn sum(column: &Column) -> u64 {
    let mut total: u64 = 0;
    if let Some(numbers) = column.numbers() {
        'numbers: for number in numbers {
            total = total.wrapping_add(*number);
        }
    }
    total
}

fn number_of(cell: Cell<'_>) -> u64 {
    match cell {
        Cell::Num(number) => number,
        Cell::Text(_) => 0,
    }
}
