//! Queries over some columns alone: the number of each column is its index among them.
ghost use Rattle.std.specs.Prelude.{◌≡◌, IfOk, map};
ghost use Rattle.pj_narrow.specs.Narrowing.{place_among, narrowed_expr, narrowed_cond, narrowed_call};
ghost use Rattle.pj_narrow.specs.Narrowing.{narrowed_item, narrowed_key, narrowed as narrowed_query};

use pj_expr::{AggCall, Cond, Expr, Item, OrderKey, Query};
use pj_value::{List, NoMemory};
use sqlite_items::Boxed;
use std::alloc::Global;

/// The query over these columns alone, in memory of its own: the number of each column is its index among
/// them. One that isn't among them gets how many they are, so a query that uses it fits no rows of these columns.
/// Each use of a column looks through them for its index. Fails only where it is out of memory.
pub fn narrowed(alloc: Global, query: &Query, columns: &[usize]) -> Result<Query, NoMemory>
    ensures { IfOk result (λ q. q ≡ narrowed_query columns.now query.now) }
{
    let items = List::from_vec(narrowed_items(alloc, query.items.as_slice(), columns)?);
    let filter = narrowed_cond(alloc, &query.filter, columns)?;
    let groups = List::from_vec(narrowed_groups(alloc, query.groups.as_slice(), columns)?);
    let order = List::from_vec(narrowed_keys(alloc, query.order.as_slice(), columns)?);
    Ok(Query {
        items,
        filter,
        groups,
        order,
        limit: query.limit,
    })
}

/// The items over these columns.
fn narrowed_items(alloc: Global, items: &[Item], columns: &[usize]) -> Result<Vec<Item>, NoMemory>
    ensures { IfOk result (λ v. v.items ≡ map (narrowed_item columns.now) items.now) }
{
    let mut narrow = Vec::with_capacity(alloc, items.len())?;
    'items: for item in items {
        narrow.push(narrowed_item(alloc, item, columns)?)?;
    }
    Ok(narrow)
}

/// The values of GROUP BY over these columns.
fn narrowed_groups(alloc: Global, groups: &[Expr], columns: &[usize]) -> Result<Vec<Expr>, NoMemory>
    ensures { IfOk result (λ v. v.items ≡ map (narrowed_expr columns.now) groups.now) }
{
    let mut narrow = Vec::with_capacity(alloc, groups.len())?;
    'groups: for expr in groups {
        narrow.push(narrowed_expr(alloc, expr, columns)?)?;
    }
    Ok(narrow)
}

/// The keys of ORDER BY over these columns.
fn narrowed_keys(
    alloc: Global,
    keys: &[OrderKey],
    columns: &[usize],
) -> Result<Vec<OrderKey>, NoMemory>
    ensures { IfOk result (λ v. v.items ≡ map (narrowed_key columns.now) keys.now) }
{
    let mut narrow = Vec::with_capacity(alloc, keys.len())?;
    'keys: for key in keys {
        narrow.push(narrowed_key(alloc, key, columns)?)?;
    }
    Ok(narrow)
}

/// A key of ORDER BY over these columns.
fn narrowed_key(alloc: Global, key: &OrderKey, columns: &[usize]) -> Result<OrderKey, NoMemory>
    ensures { IfOk result (λ k. k ≡ narrowed_key columns.now key.now) }
{
    let item = narrowed_item(alloc, &key.item, columns)?;
    Ok(OrderKey {
        item,
        descending: key.descending,
    })
}

/// An item over these columns.
fn narrowed_item(alloc: Global, item: &Item, columns: &[usize]) -> Result<Item, NoMemory>
    ensures { IfOk result (λ i. i ≡ narrowed_item columns.now item.now) }
{
    match item {
        Item::Plain(expr) => Ok(Item::Plain(narrowed_expr(alloc, expr, columns)?)),
        Item::Agg(call) => Ok(Item::Agg(narrowed_call(alloc, call, columns)?)),
    }
}

/// A call over these columns.
fn narrowed_call(alloc: Global, call: &AggCall, columns: &[usize]) -> Result<AggCall, NoMemory>
    ensures { IfOk result (λ c. c ≡ narrowed_call columns.now call.now) }
{
    let argument = match &call.argument {
        Some(expr) => Some(narrowed_expr(alloc, expr, columns)?),
        None => None,
    };
    Ok(AggCall {
        kind: call.kind,
        argument,
    })
}

/// A condition over these columns.
fn narrowed_cond(alloc: Global, cond: &Cond, columns: &[usize]) -> Result<Cond, NoMemory>
    ensures { IfOk result (λ c. c ≡ narrowed_cond columns.now cond.now) }
{
    match cond {
        Cond::All => Ok(Cond::All),
        Cond::Compare(op, a, b) => {
            let a = narrowed_expr(alloc, a, columns)?;
            let b = narrowed_expr(alloc, b, columns)?;
            Ok(Cond::Compare(*op, a, b))
        }
        Cond::And(a, b) => {
            let a = Boxed::new(alloc, narrowed_cond(alloc, a.get(), columns)?)?;
            let b = Boxed::new(alloc, narrowed_cond(alloc, b.get(), columns)?)?;
            Ok(Cond::And(a, b))
        }
        Cond::Or(a, b) => {
            let a = Boxed::new(alloc, narrowed_cond(alloc, a.get(), columns)?)?;
            let b = Boxed::new(alloc, narrowed_cond(alloc, b.get(), columns)?)?;
            Ok(Cond::Or(a, b))
        }
        Cond::Not(a) => {
            let a = Boxed::new(alloc, narrowed_cond(alloc, a.get(), columns)?)?;
            Ok(Cond::Not(a))
        }
    }
}

/// An expression over these columns.
fn narrowed_expr(alloc: Global, expr: &Expr, columns: &[usize]) -> Result<Expr, NoMemory>
    ensures { IfOk result (λ e. e ≡ narrowed_expr columns.now expr.now) }
{
    match expr {
        Expr::Column(at) => Ok(Expr::Column(place_among(columns, *at))),
        Expr::Num(number) => Ok(Expr::Num(*number)),
        Expr::Text(text) => Ok(Expr::Text(text.duplicate(alloc)?)),
        Expr::Add(a, b) => {
            let a = Boxed::new(alloc, narrowed_expr(alloc, a.get(), columns)?)?;
            let b = Boxed::new(alloc, narrowed_expr(alloc, b.get(), columns)?)?;
            Ok(Expr::Add(a, b))
        }
        Expr::Mul(a, b) => {
            let a = Boxed::new(alloc, narrowed_expr(alloc, a.get(), columns)?)?;
            let b = Boxed::new(alloc, narrowed_expr(alloc, b.get(), columns)?)?;
            Ok(Expr::Mul(a, b))
        }
        Expr::IntDiv(a, divisor) => {
            let a = Boxed::new(alloc, narrowed_expr(alloc, a.get(), columns)?)?;
            Ok(Expr::IntDiv(a, *divisor))
        }
        Expr::Mod(a, divisor) => {
            let a = Boxed::new(alloc, narrowed_expr(alloc, a.get(), columns)?)?;
            Ok(Expr::Mod(a, *divisor))
        }
    }
}

/// The index of a column among these, and how many they are where it isn't one of them.
fn place_among(columns: &[usize], column: usize) -> usize
    ensures { result ≡ place_among columns.now column }
{
    columns.iter().take_while(|at| **at != column).count()
}
