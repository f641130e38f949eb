//! Which queries fit rows of these kinds, tested. It takes no memory.
ghost use Rattle.std.specs.Prelude.{◌≡◌, ◌↔◌, IsTrue, Contains};
ghost use Rattle.std.specs.List.{AllByRecursion, list_any};
ghost use Rattle.pj_expr.specs.Fits.{FitsExpr, FitsItem, FitsCallOf, FitsQuery, IsBuiltOf, IsOfGroup};
ghost use Rattle.pj_expr.specs.Fits.{is_call, is_grouped, aggregates_rows, KeepsKinds, KeepsGroups};

use crate::expr::Expr;
use crate::fits::{fits_cond, fits_expr, kind_of_expr};
use crate::query::{AggCall, Item, OrderKey, Query};
use pj_value::{AggKind, Kind};

/// Whether a query fits rows of these kinds.
pub fn fits_query(query: &Query, kinds: &[Kind]) -> bool
    ensures { IsTrue result ↔ FitsQuery kinds.now query.now }
{
    keeps_kinds(query, kinds) & keeps_groups(query)
}

/// Whether the parts of a query fit rows of these kinds, whatever its groups are.
pub fn keeps_kinds(query: &Query, kinds: &[Kind]) -> bool
    ensures { IsTrue result ↔ KeepsKinds kinds.now query.now }
{
    fits_cond(&query.filter, kinds)
        & items_fit(query.items.as_slice(), kinds)
        & groups_fit(query.groups.as_slice(), kinds)
        & keys_fit(query.order.as_slice(), kinds)
}

/// Whether a query that aggregates gives nothing besides calls but what is built of its GROUP BY values and
/// of literals. One that doesn't aggregate has no groups, so it passes.
pub fn keeps_groups(query: &Query) -> bool
    ensures { IsTrue result ↔ KeepsGroups query.now }
{
    let groups = query.groups.as_slice();
    let grouped = items_of_groups(query.items.as_slice(), groups)
        & keys_of_groups(query.order.as_slice(), groups);
    !aggregates(query) | grouped
}

/// Whether a query aggregates: it has a call, or a GROUP BY.
pub fn aggregates(query: &Query) -> bool
    ensures { result ≡ aggregates_rows query.now }
{
    let keys = any_call_of_keys(query.order.as_slice()) | has_groups(query.groups.as_slice());
    any_call(query.items.as_slice()) | keys
}

/// Whether there is a call among the items.
fn any_call(items: &[Item]) -> bool
    ensures { result ≡ list_any is_call items.now }
{
    items.iter().any(|item| has_call(item))
}

/// Whether there is a call among the keys of ORDER BY.
fn any_call_of_keys(keys: &[OrderKey]) -> bool
    ensures { result ≡ list_any (λ key. is_call key.item) keys.now }
{
    keys.iter().any(|key| has_call(&key.item))
}

/// Whether an item is a call.
fn has_call(item: &Item) -> bool
    ensures { result ≡ is_call item.now }
{
    match item {
        Item::Plain(_) => false,
        Item::Agg(_) => true,
    }
}

/// Whether there is a GROUP BY.
fn has_groups(groups: &[Expr]) -> bool
    ensures { result ≡ is_grouped groups.now }
{
    match groups {
        [] => false,
        _ => true,
    }
}

/// Whether each item fits.
fn items_fit(items: &[Item], kinds: &[Kind]) -> bool
    ensures { IsTrue result ↔ AllByRecursion (FitsItem kinds.now) items.now }
{
    for item in items {
        if !fits_item(item, kinds) {
            return false;
        }
    }
    true
}

/// Whether the item of each key fits.
fn keys_fit(keys: &[OrderKey], kinds: &[Kind]) -> bool
    ensures { IsTrue result ↔ AllByRecursion (λ key. FitsItem kinds.now key.item) keys.now }
{
    for key in keys {
        if !fits_item(&key.item, kinds) {
            return false;
        }
    }
    true
}

/// Whether each value of GROUP BY fits.
fn groups_fit(groups: &[Expr], kinds: &[Kind]) -> bool
    ensures { IsTrue result ↔ AllByRecursion (FitsExpr kinds.now) groups.now }
{
    for expr in groups {
        if !fits_expr(expr, kinds) {
            return false;
        }
    }
    true
}

/// Whether an item fits.
fn fits_item(item: &Item, kinds: &[Kind]) -> bool
    ensures { IsTrue result ↔ FitsItem kinds.now item.now }
{
    match item {
        Item::Plain(expr) => fits_expr(expr, kinds),
        Item::Agg(call) => fits_call(call, kinds),
    }
}

/// Whether a call fits.
fn fits_call(call: &AggCall, kinds: &[Kind]) -> bool
    ensures { IsTrue result ↔ FitsCallOf kinds.now call.now.kind call.now.argument }
{
    match (call.kind, &call.argument) {
        (AggKind::Count, None) => true,
        (AggKind::Count, Some(_)) => false,
        (AggKind::Sum, Some(expr)) => kind_of_expr(expr, kinds) == Some(Kind::Num),
        (_, Some(expr)) => fits_expr(expr, kinds),
        (_, None) => false,
    }
}

/// Whether each item is a call, or built of these values and of literals.
fn items_of_groups(items: &[Item], groups: &[Expr]) -> bool
    ensures { IsTrue result ↔ AllByRecursion (IsOfGroup groups.now) items.now }
{
    for item in items {
        if !is_of_group(item, groups) {
            return false;
        }
    }
    true
}

/// Whether the item of each key is a call, or built of these values and of literals.
fn keys_of_groups(keys: &[OrderKey], groups: &[Expr]) -> bool
    ensures { IsTrue result ↔ AllByRecursion (λ key. IsOfGroup groups.now key.item) keys.now }
{
    for key in keys {
        if !is_of_group(&key.item, groups) {
            return false;
        }
    }
    true
}

/// Whether an item is a call, or built of these values and of literals.
fn is_of_group(item: &Item, groups: &[Expr]) -> bool
    ensures { IsTrue result ↔ IsOfGroup groups.now item.now }
{
    match item {
        Item::Plain(expr) => is_built_of(expr, groups),
        Item::Agg(_) => true,
    }
}

/// Whether an expression is built of these and of literals.
fn is_built_of(expr: &Expr, keys: &[Expr]) -> bool
    ensures { IsTrue result ↔ IsBuiltOf keys.now expr.now }
{
    if is_among(expr, keys) {
        return true;
    }
    match expr {
        Expr::Column(_) => false,
        Expr::Num(_) => true,
        Expr::Text(_) => true,
        Expr::Add(a, b) => is_built_of(a.get(), keys) && is_built_of(b.get(), keys),
        Expr::Mul(a, b) => is_built_of(a.get(), keys) && is_built_of(b.get(), keys),
        Expr::IntDiv(a, _) => is_built_of(a.get(), keys),
        Expr::Mod(a, _) => is_built_of(a.get(), keys),
    }
}

/// Whether an expression is one of these.
fn is_among(expr: &Expr, keys: &[Expr]) -> bool
    ensures { IsTrue result ↔ Contains keys.now expr.now }
{
    keys.iter().any(|key| is_same_expr(key, expr))
}

/// Whether two expressions are the same, part by part, up to the first part that differs. It takes no memory.
pub fn is_same_expr(a: &Expr, b: &Expr) -> bool
    ensures { IsTrue result ↔ (a.now ≡ b.now) }
{
    match (a, b) {
        (Expr::Column(m), Expr::Column(n)) => *m == *n,
        (Expr::Num(m), Expr::Num(n)) => *m == *n,
        (Expr::Text(s), Expr::Text(t)) => s.as_slice() == t.as_slice(),
        (Expr::Add(a, b), Expr::Add(c, d)) => is_same_expr(a.get(), c.get())
            && is_same_expr(b.get(), d.get()),
        (Expr::Mul(a, b), Expr::Mul(c, d)) => is_same_expr(a.get(), c.get())
            && is_same_expr(b.get(), d.get()),
        (Expr::IntDiv(a, m), Expr::IntDiv(b, n)) => is_same_expr(a.get(), b.get()) && *m == *n,
        (Expr::Mod(a, m), Expr::Mod(b, n)) => is_same_expr(a.get(), b.get()) && *m == *n,
        _ => false,
    }
}
