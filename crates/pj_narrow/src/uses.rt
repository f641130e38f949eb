//! Which columns a query uses.
ghost use Rattle.std.specs.Prelude.{◌≡◌, IfOk};
ghost use Rattle.std.specs.List.{list_any};
ghost use Rattle.pj_narrow.specs.Narrowing.{expr_uses, cond_uses, item_uses, query_uses, columns_in};

use pj_expr::{Cond, Expr, Item, OrderKey, Query};
use pj_value::NoMemory;
use std::alloc::Global;

/// The columns that a query uses, of so many, in their order. The query is walked once for each column, of
/// which a table has at most 64. Fails only where it is out of memory.
pub fn columns_of(alloc: Global, query: &Query, count: usize) -> Result<Vec<usize>, NoMemory>
    ensures { IfOk result (λ columns. columns.items ≡ columns_in count query.now) }
{
    let mut columns = Vec::new(alloc);
    'columns: for column in 0..count {
        let used = query_uses(query, column);
        if used {
            columns.push(column)?;
        }
    }
    Ok(columns)
}

/// Whether a query uses a column.
fn query_uses(query: &Query, column: usize) -> bool
    ensures { result ≡ query_uses column query.now }
{
    let keys = exprs_use(query.groups.as_slice(), column)
        | keys_use(query.order.as_slice(), column);
    let filter = cond_uses(&query.filter, column) | keys;
    items_use(query.items.as_slice(), column) | filter
}

/// Whether one of the items uses a column.
fn items_use(items: &[Item], column: usize) -> bool
    ensures { result ≡ list_any (item_uses column) items.now }
{
    items.iter().any(|item| item_uses(item, column))
}

/// Whether one of the values of GROUP BY uses a column.
fn exprs_use(exprs: &[Expr], column: usize) -> bool
    ensures { result ≡ list_any (expr_uses column) exprs.now }
{
    exprs.iter().any(|expr| expr_uses(expr, column))
}

/// Whether one of the keys of ORDER BY uses a column.
fn keys_use(keys: &[OrderKey], column: usize) -> bool
    ensures { result ≡ list_any (λ key. item_uses column key.item) keys.now }
{
    keys.iter().any(|key| item_uses(&key.item, column))
}

/// Whether an item uses a column.
fn item_uses(item: &Item, column: usize) -> bool
    ensures { result ≡ item_uses column item.now }
{
    match item {
        Item::Plain(expr) => expr_uses(expr, column),
        Item::Agg(call) => match &call.argument {
            Some(expr) => expr_uses(expr, column),
            None => false,
        },
    }
}

/// Whether a condition uses a column.
fn cond_uses(cond: &Cond, column: usize) -> bool
    ensures { result ≡ cond_uses column cond.now }
{
    match cond {
        Cond::All => false,
        Cond::Compare(_, a, b) => expr_uses(a, column) | expr_uses(b, column),
        Cond::And(a, b) => cond_uses(a.get(), column) | cond_uses(b.get(), column),
        Cond::Or(a, b) => cond_uses(a.get(), column) | cond_uses(b.get(), column),
        Cond::Not(a) => cond_uses(a.get(), column),
    }
}

/// Whether an expression uses a column.
fn expr_uses(expr: &Expr, column: usize) -> bool
    ensures { result ≡ expr_uses column expr.now }
{
    match expr {
        Expr::Column(at) => *at == column,
        Expr::Num(_) => false,
        Expr::Text(_) => false,
        Expr::Add(a, b) => expr_uses(a.get(), column) | expr_uses(b.get(), column),
        Expr::Mul(a, b) => expr_uses(a.get(), column) | expr_uses(b.get(), column),
        Expr::IntDiv(a, _) => expr_uses(a.get(), column),
        Expr::Mod(a, _) => expr_uses(a.get(), column),
    }
}
