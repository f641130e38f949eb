//! The item_rows of a query: what its items give for each group of rows. A plain program, a value at a time.
ghost use Rattle.std.specs.Prelude.{◌≡◌, IfOk, map};
ghost use Rattle.std.specs.List.{All};
ghost use Rattle.pj_expr.specs.Fits.{FitsItem};
ghost use Rattle.pj_answer.specs.Answers.{item_value, item_kind};
ghost use Rattle.pj_answer.specs.Rows.{item_row, item_rows, HasShape};

use crate::calls::{kind_of_call, value_of_call};
use pj_expr::{Item, OrderKey, eval_or_none, kind_of_expr};
use pj_value::{Kind, NoMemory, PushFault, Rows, Value};
use std::alloc::Global;

/// A row for each group: what the items give for it.
pub(crate) fn item_rows(
    alloc: Global,
    items: &[Item],
    kinds: &[Kind],
    groups: &[Rows],
) -> Result<Rows, NoMemory>
    requires fits { All (FitsItem kinds.now) items.now }
    requires kinds { All (λ g. g.kinds ≡ kinds.now) groups.now }
    requires shape { All (HasShape kinds.now items.now) groups.now }
    ensures { IfOk result (λ r. r ≡ item_rows kinds.now items.now groups.now) }
{
    let shape = item_kinds(alloc, items, kinds)?;
    let mut rows = Rows::new(alloc, shape.as_slice())?;
    for group in groups {
        let row = item_row(alloc, items, group)?;
        match rows.push(row.as_slice()) {
            Ok(()) => {}
            Err(PushFault::NoMemory) => return Err(NoMemory),
            Err(PushFault::WrongShape) => unreachable!(),
        }
    }
    Ok(rows)
}

/// What the items give for a group.
fn item_row(alloc: Global, items: &[Item], group: &Rows) -> Result<Vec<Value>, NoMemory>
    requires { All (FitsItem group.now.kinds) items.now }
    ensures { IfOk result (λ vs. vs.items ≡ item_row items.now group.now) }
{
    let mut row = Vec::with_capacity(alloc, items.len())?;
    for item in items {
        row.push(value_of_item(alloc, item, group)?)?;
    }
    Ok(row)
}

/// What an item gives for a group: the value for its first row, or that of a call.
fn value_of_item(alloc: Global, item: &Item, group: &Rows) -> Result<Value, NoMemory>
    requires { FitsItem group.now.kinds item.now }
    ensures { IfOk result (λ v. v ≡ item_value group.now.kinds group.now.rows item.now) }
{
    match item {
        Item::Plain(expr) => {
            let value = eval_or_none(expr, group, 0).to_value(alloc)?;
            Ok(value)
        }
        Item::Agg(call) => value_of_call(alloc, call, group),
    }
}

/// The kinds of the items: those of the columns of an answer.
pub fn item_kinds(alloc: Global, items: &[Item], kinds: &[Kind]) -> Result<Vec<Kind>, NoMemory>
    ensures { IfOk result (λ ks. ks.items ≡ map (item_kind kinds.now) items.now) }
{
    let mut found = Vec::with_capacity(alloc, items.len())?;
    for item in items {
        found.push(kind_of_item(item, kinds))?;
    }
    Ok(found)
}

/// The kind of an item, that of numbers where it doesn't fit.
fn kind_of_item(item: &Item, kinds: &[Kind]) -> Kind
    ensures { result ≡ item_kind kinds.now item.now }
{
    match item {
        Item::Plain(expr) => match kind_of_expr(expr, kinds) {
            Some(kind) => kind,
            None => Kind::Num,
        },
        Item::Agg(call) => kind_of_call(call, kinds),
    }
}

/// Copies of what the keys of ORDER BY compare.
pub(crate) fn items_of_keys(alloc: Global, keys: &[OrderKey]) -> Result<Vec<Item>, NoMemory>
    ensures { IfOk result (λ is. is.items ≡ map (λ key. key.item) keys.now) }
{
    let mut items = Vec::with_capacity(alloc, keys.len())?;
    for key in keys {
        items.push(key.item.duplicate(alloc)?)?;
    }
    Ok(items)
}
