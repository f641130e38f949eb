//! Expressions and conditions at one row. It takes no memory.
ghost use Rattle.std.specs.Prelude.{◌≡◌, ◌<◌, [], length, slice_index_or};
ghost use Rattle.pj_value.specs.Values.{value_of};
ghost use Rattle.pj_value.specs.Aggregates.{number_in};
ghost use Rattle.pj_expr.specs.Eval.{eval, holds};
ghost use Rattle.pj_expr.specs.Fits.{FitsExpr, FitsCond};

use crate::cond::Cond;
use crate::expr::Expr;
use pj_value::{Cell, Rows, cell_cmp};

/// The value of an expression at a row, lent from the expression or from the rows.
pub fn eval_row<'a>(expr: &'a Expr, rows: &'a Rows, at: usize) -> Cell<'a>
    requires fits { FitsExpr rows.now.kinds expr.now }
    requires at { at < length rows.now.rows }
    ensures { value_of result ≡ eval expr.now (slice_index_or rows.now.rows at []) }
{
    eval_or_none(expr, rows, at)
}

/// Whether a row satisfies a condition.
pub fn holds_row(filter: &Cond, rows: &Rows, at: usize) -> bool
    requires fits { FitsCond rows.now.kinds filter.now }
    requires at { at < length rows.now.rows }
    ensures { result ≡ holds filter.now (slice_index_or rows.now.rows at []) }
{
    match filter {
        Cond::All => true,
        Cond::Compare(op, a, b) => {
            op.is_met_by(cell_cmp(eval_row(a, rows, at), eval_row(b, rows, at)))
        }
        Cond::And(a, b) => holds_row(a.get(), rows, at) && holds_row(b.get(), rows, at),
        Cond::Or(a, b) => holds_row(a.get(), rows, at) || holds_row(b.get(), rows, at),
        Cond::Not(a) => !holds_row(a.get(), rows, at),
    }
}

/// The value of an expression at a row, and for a row without values where there is none.
pub fn eval_or_none<'a>(expr: &'a Expr, rows: &'a Rows, at: usize) -> Cell<'a>
    requires { FitsExpr rows.now.kinds expr.now }
    ensures { value_of result ≡ eval expr.now (slice_index_or rows.now.rows at []) }
{
    match expr {
        Expr::Column(column) => {
            if at < rows.len() {
                rows.cell(at, *column)
            } else {
                Cell::Num(0)
            }
        }
        Expr::Num(number) => Cell::Num(*number),
        Expr::Text(text) => Cell::Text(text),
        Expr::Add(a, b) => {
            let a = number_of(eval_or_none(a.get(), rows, at));
            let b = number_of(eval_or_none(b.get(), rows, at));
            Cell::Num(a.wrapping_add(b))
        }
        Expr::Mul(a, b) => {
            let a = number_of(eval_or_none(a.get(), rows, at));
            let b = number_of(eval_or_none(b.get(), rows, at));
            Cell::Num(a.wrapping_mul(b))
        }
        Expr::IntDiv(a, divisor) => {
            let a = number_of(eval_or_none(a.get(), rows, at));
            Cell::Num(a / *divisor)
        }
        Expr::Mod(a, divisor) => {
            let a = number_of(eval_or_none(a.get(), rows, at));
            Cell::Num(a % *divisor)
        }
    }
}

/// The number that a cell lends, 0 for a text.
pub fn number_of(cell: Cell<'_>) -> u64
    ensures { result ≡ number_in (value_of cell.entry) }
{
    match cell {
        Cell::Num(number) => number,
        Cell::Text(_) => 0,
    }
}
