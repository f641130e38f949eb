//! Which expressions and conditions fit rows of these kinds, tested. It takes no memory.
ghost use Rattle.std.specs.Prelude.{◌≡◌, ◌↔◌, IsTrue};
ghost use Rattle.pj_expr.specs.Fits.{of_numbers, of_division, alike, expr_kind, FitsExpr, FitsCond};

use crate::cond::Cond;
use crate::expr::Expr;
use pj_value::Kind;
use sqlite_items::at;

/// The kind of an expression over columns of these kinds, and none where it doesn't fit them.
pub fn kind_of_expr(expr: &Expr, kinds: &[Kind]) -> Option<Kind>
    ensures { result ≡ expr_kind kinds.now expr.now }
{
    match expr {
        Expr::Column(column) => at(kinds, *column).copied(),
        Expr::Num(_) => Some(Kind::Num),
        Expr::Text(_) => Some(Kind::Text),
        Expr::Add(a, b) => {
            of_two_numbers(kind_of_expr(a.get(), kinds), kind_of_expr(b.get(), kinds))
        }
        Expr::Mul(a, b) => {
            of_two_numbers(kind_of_expr(a.get(), kinds), kind_of_expr(b.get(), kinds))
        }
        Expr::IntDiv(a, divisor) => of_a_division(kind_of_expr(a.get(), kinds), *divisor),
        Expr::Mod(a, divisor) => of_a_division(kind_of_expr(a.get(), kinds), *divisor),
    }
}

/// Whether an expression fits columns of these kinds: its columns are there, arithmetic is of numbers, and no
/// divisor is 0.
pub fn fits_expr(expr: &Expr, kinds: &[Kind]) -> bool
    ensures { IsTrue result ↔ FitsExpr kinds.now expr.now }
{
    match kind_of_expr(expr, kinds) {
        Some(_) => true,
        None => false,
    }
}

/// Whether each comparison of the condition is of two values of one kind, over columns of these kinds.
pub fn fits_cond(cond: &Cond, kinds: &[Kind]) -> bool
    ensures { IsTrue result ↔ FitsCond kinds.now cond.now }
{
    match cond {
        Cond::All => true,
        Cond::Compare(_, a, b) => are_alike(kind_of_expr(a, kinds), kind_of_expr(b, kinds)),
        Cond::And(a, b) => fits_cond(a.get(), kinds) && fits_cond(b.get(), kinds),
        Cond::Or(a, b) => fits_cond(a.get(), kinds) && fits_cond(b.get(), kinds),
        Cond::Not(a) => fits_cond(a.get(), kinds),
    }
}

/// The kind of a sum or a product.
fn of_two_numbers(a: Option<Kind>, b: Option<Kind>) -> Option<Kind>
    ensures { result ≡ of_numbers a b }
{
    match (a, b) {
        (Some(Kind::Num), Some(Kind::Num)) => Some(Kind::Num),
        _ => None,
    }
}

/// The kind of a quotient or a remainder.
fn of_a_division(a: Option<Kind>, divisor: u64) -> Option<Kind>
    ensures { result ≡ of_division a divisor }
{
    match a {
        Some(Kind::Num) => { if 1 <= divisor { Some(Kind::Num) } else { None } }
        _ => None,
    }
}

/// Whether there are two kinds, and they are one.
fn are_alike(a: Option<Kind>, b: Option<Kind>) -> bool
    ensures { result ≡ alike a b }
{
    match (a, b) {
        (Some(Kind::Num), Some(Kind::Num)) => true,
        (Some(Kind::Text), Some(Kind::Text)) => true,
        _ => false,
    }
}
