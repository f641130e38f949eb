//! What is held for all items of a query and its order keys, one by one.
ghost use Rattle.std.specs.Prelude.{◌≡◌, ◌≤◌, ℕ, List, [], IfOk, OnOk, drop, length, map};
ghost use Rattle.std.specs.List.{All, AllZip};
ghost use Rattle.pj_value.specs.declared.value.Kind.{Kind};
ghost use Rattle.pj_value.specs.Rows.{rows_at};
ghost use Rattle.pj_expr.specs.declared.query.Item.{Item};
ghost use Rattle.pj_expr.specs.declared.query.Query.{Query};
ghost use Rattle.pj_expr.specs.Fits.{FitsItem, IsOfGroup};
ghost use Rattle.pj_answer.specs.Answers.{Row};
ghost use Rattle.pj_group.specs.Dense.{IsKept};
ghost use Rattle.pj_group.specs.Lines.{column_over};
ghost use Rattle.pj_group.specs.Standing.{IsSlot, all_items, groups_of_none};
ghost use Rattle.pj_group.specs.Slots.{AreWithin, Grow, IsItemOf, IsOfItem};
ghost use Rattle.pj_group.specs.declared.forms.Form.TheVariants.{One};

use crate::dense::Kept;
use crate::forms::Form;
use crate::numbers::Numbers;
use crate::slots::{Slot, add_to, empty_slot, finished, slot_of_none};
use pj_expr::{Item, Query};
use pj_value::{Column, NoMemory, Rows};
use std::alloc::Global;

/// The items of a query, and then those of its order keys.
pub(crate) fn items_of<'a>(alloc: Global, query: &'a Query) -> Result<Vec<&'a Item>, NoMemory>
    ensures { IfOk result (λ is. map (λ i. i.now) is.items ≡ all_items query.now) }
{
    let mut found = Vec::with_capacity(alloc, query.items.as_slice().len())?;
    for item in query.items.as_slice() {
        found.push(item)?;
    }
    for key in query.order.as_slice() {
        found.push(&key.item)?;
    }
    Ok(found)
}

/// What is held for each item where no row was added.
pub(crate) fn new_slots(
    alloc: Global,
    items: &[&Item],
    none: &Rows,
    form: &Form,
) -> Result<Vec<Slot>, NoMemory>
    requires fits { All (λ i. FitsItem none.now.kinds i.now) items.now }
    requires built { form.now ≡ One → All (λ i. IsOfGroup [] i.now) items.now }
    requires none { none.now.rows ≡ [] }
    ensures { IfOk result (λ ss. AllZip (λ i s. IsSlot none.now.kinds (groups_of_none form.now) i.now s)
        items.now ss.items) }
{
    let mut slots = Vec::with_capacity(alloc, items.len())?;
    for item in items {
        slots.push(new_slot(alloc, item, none, form)?)?;
    }
    Ok(slots)
}

/// What is held for an item where no row was added.
fn new_slot(alloc: Global, item: &Item, none: &Rows, form: &Form) -> Result<Slot, NoMemory>
    requires fits { FitsItem none.now.kinds item.now }
    requires built { form.now ≡ One → IsOfGroup [] item.now }
    requires none { none.now.rows ≡ [] }
    ensures { IfOk result (IsSlot none.now.kinds (groups_of_none form.now) item.now) }
{
    match form {
        Form::One => slot_of_none(alloc, item, none),
        _ => Ok(empty_slot(alloc, item, none.kinds())),
    }
}

/// Adds further rows to what is held for each item.
pub(crate) fn add_to_all(
    alloc: Global,
    slots: &mut Vec<Slot>,
    items: &[&Item],
    rows: &Rows,
    kept: &Kept,
    numbers: &Numbers,
    groups: usize,
) -> Result<(), NoMemory>
    requires fits { All (λ i. FitsItem rows.now.kinds i.now) items.now }
    requires kept { IsKept rows.now.rows kept.now }
    requires form { (n : ℕ) × (n ≤ groups)
        × AllZip (λ i s. IsOfItem rows.now.kinds n i.now s) items.now slots.old.items }
    requires within { All (λ i. AreWithin groups (length kept.now.indexes.items) i.now numbers.now) items.now }
    ensures { OnOk result ((q : Query) (old new : List (List Row))
        → All (λ i. IsItemOf q i.now) items.now → length new ≡ groups
        → Grow q numbers.now (rows_at rows.now.rows kept.now.indexes.items) old new
        → AllZip (λ i s. IsSlot rows.now.kinds old i.now s) items.now slots.old.items
        → AllZip (λ i s. IsSlot rows.now.kinds new i.now s) items.now slots.new.items) }
{
    for at in 0..items.len() {
        add_to(
            alloc,
            &mut slots[at],
            items[at],
            rows,
            kept,
            numbers,
            groups,
        )?;
    }
    Ok(())
}

/// The columns of a query's order keys, which stand behind those of its items.
pub(crate) fn order_columns<'a>(query: &Query, columns: &'a [Column]) -> &'a [Column]
    requires { length query.now.items ≤ length columns.now }
    ensures { result.now ≡ drop (length query.now.items) columns.now }
{
    columns.split_at(query.items.as_slice().len()).1
}

/// What the items give for each group.
pub(crate) fn all_finished(alloc: Global, slots: Vec<Slot>) -> Result<Vec<Column>, NoMemory>
    ensures { (columns : List Kind) (groups : List (List Row)) (items : List Item)
        → All (FitsItem columns) items → AllZip (IsSlot columns groups) items slots.items
        → IfOk result (λ cs. cs.items ≡ map (column_over columns groups) items) }
{
    let mut columns = Vec::with_capacity(alloc, slots.len())?;
    for slot in slots {
        columns.push(finished(alloc, slot)?)?;
    }
    Ok(columns)
}
