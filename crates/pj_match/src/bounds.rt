//! The bounds that the conjuncts of a filter set to a component of a key. It takes no memory.
ghost use Rattle.std.specs.Prelude.{◌≡◌};
ghost use Rattle.std.specs.Option.{option_map};
ghost use Rattle.pj_value.specs.Values.{value_of};
ghost use Rattle.pj_match.specs.Ranges.{turned, literal, bound_by, bounds, IsChosen};
ghost use Rattle.pj_match.specs.Sides.{serves, choice};

use crate::sides::Side;
use pj_expr::{Cond, Expr, Op, is_same_expr};
use pj_value::Cell;

/// The literal that stands at a side of the range of a component, where the filter bounds it there. It walks
/// the filter once.
pub fn chosen<'a>(side: Side, filter: &'a Cond, component: &Expr) -> Option<Cell<'a>>
    ensures { IsChosen (serves side) (choice side) component.now (bounds filter.now) (option_map value_of result) }
{
    match filter {
        Cond::All => None,
        Cond::Compare(op, a, b) => {
            let left = literal_of(side, component, a, *op, b);
            let right = literal_of(side, component, b, turned(*op), a);
            side.either(left, right)
        }
        Cond::And(a, b) => {
            let left = chosen(side, a.get(), component);
            let right = chosen(side, b.get(), component);
            side.either(left, right)
        }
        Cond::Or(_, _) => None,
        Cond::Not(_) => None,
    }
}

/// The literal on the right of a comparison that bounds the component there.
fn literal_of<'a>(
    side: Side,
    component: &Expr,
    left: &Expr,
    op: Op,
    right: &'a Expr,
) -> Option<Cell<'a>>
    ensures { IsChosen (serves side) (choice side) component.now (bound_by left.now op (literal right.now))
        (option_map value_of result) }
{
    if side.serves(op) && is_same_expr(left, component) {
        literal(right)
    } else {
        None
    }
}

/// The value of an expression that is a literal, lent.
fn literal(expr: &Expr) -> Option<Cell<'_>>
    ensures { option_map value_of result ≡ literal expr.now }
{
    match expr {
        Expr::Num(number) => Some(Cell::Num(*number)),
        Expr::Text(text) => Some(Cell::Text(text)),
        _ => None,
    }
}

/// The comparison with its sides exchanged.
fn turned(op: Op) -> Op
    ensures { result ≡ turned op }
{
    match op {
        Op::Eq => Op::Eq,
        Op::Ne => Op::Ne,
        Op::Lt => Op::Gt,
        Op::Le => Op::Ge,
        Op::Gt => Op::Lt,
        Op::Ge => Op::Le,
    }
}
