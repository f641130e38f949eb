//! What is held for an item of a query: its value for the first row of each group, or the states of its call.
ghost use Rattle.std.specs.Prelude.{◌≡◌, ◌<◌, ◌≤◌, ◌++◌, ◌∷◌, [], ℕ, List, IfOk, OnOk, length, map};
ghost use Rattle.std.specs.Prelude.{slice_index_or};
ghost use Rattle.std.specs.List.{All};
ghost use Rattle.pj_value.specs.declared.value.Kind.{Kind};
ghost use Rattle.pj_value.specs.Rows.{rows_at};
ghost use Rattle.pj_expr.specs.declared.query.Query.{Query};
ghost use Rattle.pj_expr.specs.Eval.{eval};
ghost use Rattle.pj_expr.specs.Fits.{FitsExpr, FitsItem, FitsCallOf, IsOfGroup, expr_kind};
ghost use Rattle.pj_answer.specs.Answers.{Row, item_value, item_kind, or_number};
ghost use Rattle.pj_group.specs.Dense.{IsKept};
ghost use Rattle.pj_group.specs.Standing.{IsSlot, AreStates, argument_kind};
ghost use Rattle.pj_agg.specs.Groups.{added};
ghost use Rattle.pj_group.specs.Slots.{AreWithin, Grow, IsItemOf, IsOfItem, column_at};

use crate::dense::{Kept, as_column, column_for};
use crate::numbers::Numbers;
use pj_agg::StateColumn;
use pj_block::eval_at;
use pj_expr::{AggCall, Expr, Item, eval_or_none, kind_of_expr};
use pj_value::{Column, Kind, NoMemory, PushFault, Rows};
use std::alloc::Global;

/// What is held for an item, for each group.
#[derive(Drop)]
pub(crate) enum Slot {
    First(Column),
    States(StateColumn),
}

// ---- for no rows

/// What is held for no groups.
pub(crate) fn empty_slot(alloc: Global, item: &Item, kinds: &[Kind]) -> Slot
    requires { FitsItem kinds.now item.now }
    ensures { IsSlot kinds.now [] item.now result }
{
    match item {
        Item::Plain(expr) => Slot::First(Column::new(alloc, kind_of_value(expr, kinds))),
        Item::Agg(call) => Slot::States(no_states(alloc, call, kinds)),
    }
}

/// The kind of an expression, that of numbers where it doesn't fit.
fn kind_of_value(expr: &Expr, kinds: &[Kind]) -> Kind
    ensures { result ≡ or_number (expr_kind kinds.now expr.now) }
{
    match kind_of_expr(expr, kinds) {
        Some(kind) => kind,
        None => Kind::Num,
    }
}

/// The kind of a call's argument, that of numbers where it has none.
fn kind_of_argument(call: &AggCall, kinds: &[Kind]) -> Kind
    ensures { result ≡ argument_kind kinds.now call.now.argument }
{
    match &call.argument {
        Some(expr) => kind_of_value(expr, kinds),
        None => Kind::Num,
    }
}

/// No states of a call.
fn no_states(alloc: Global, call: &AggCall, kinds: &[Kind]) -> StateColumn
    requires { FitsCallOf kinds.now call.now.kind call.now.argument }
    ensures { AreStates kinds.now [] call.now result }
{
    StateColumn::new(alloc, call.kind, kind_of_argument(call, kinds))
}

/// What is held for one group without rows.
pub(crate) fn slot_of_none(alloc: Global, item: &Item, none: &Rows) -> Result<Slot, NoMemory>
    requires fits { FitsItem none.now.kinds item.now }
    requires built { IsOfGroup [] item.now }
    requires none { none.now.rows ≡ [] }
    ensures { IfOk result (IsSlot none.now.kinds ([] ∷ []) item.now) }
{
    match item {
        Item::Plain(expr) => {
            let column = literal(alloc, expr, none)?;
            Ok(Slot::First(column))
        }
        Item::Agg(call) => {
            let states = one_state(alloc, call, none.kinds())?;
            Ok(Slot::States(states))
        }
    }
}

/// The value of an expression that is built of literals.
fn literal(alloc: Global, expr: &Expr, none: &Rows) -> Result<Column, NoMemory>
    requires fits { FitsExpr none.now.kinds expr.now }
    requires built { IsOfGroup [] (Item.Plain expr.now) }
    requires none { none.now.rows ≡ [] }
    ensures kind { IfOk result (λ c. c.kind ≡ item_kind none.now.kinds (Item.Plain expr.now)) }
    ensures values { IfOk result (λ c. c.values ≡ eval expr.now [] ∷ []) }
{
    let mut column = Column::new(alloc, kind_of_value(expr, none.kinds()));
    let value = eval_or_none(expr, none, 0).to_value(alloc)?;
    match column.push(value) {
        Ok(()) => Ok(column),
        Err(PushFault::NoMemory) => Err(NoMemory),
        Err(PushFault::WrongShape) => unreachable!(),
    }
}

/// The state of a call that stands for no values.
fn one_state(alloc: Global, call: &AggCall, kinds: &[Kind]) -> Result<StateColumn, NoMemory>
    requires { FitsCallOf kinds.now call.now.kind call.now.argument }
    ensures { IfOk result (AreStates kinds.now ([] ∷ []) call.now) }
{
    let mut states = no_states(alloc, call, kinds);
    states.grow(alloc, 1)?;
    Ok(states)
}

// ---- with further rows

/// Adds further rows to what is held: those that are kept, which are of these groups, of which there are so many.
pub(crate) fn add_to(
    alloc: Global,
    slot: &mut Slot,
    item: &Item,
    rows: &Rows,
    kept: &Kept,
    numbers: &Numbers,
    groups: usize,
) -> Result<(), NoMemory>
    requires fits { FitsItem rows.now.kinds item.now }
    requires kept { IsKept rows.now.rows kept.now }
    requires form { (n : ℕ) × (n ≤ groups) × IsOfItem rows.now.kinds n item.now slot.old }
    requires within { AreWithin groups (length kept.now.indexes.items) item.now numbers.now }
    ensures { OnOk result ((q : Query) (old new : List (List Row))
        → IsItemOf q item.now → length new ≡ groups
        → Grow q numbers.now (rows_at rows.now.rows kept.now.indexes.items) old new
        → IsSlot rows.now.kinds old item.now slot.old → IsSlot rows.now.kinds new item.now slot.new) }
{
    match item {
        Item::Plain(expr) => match slot {
            Slot::First(column) => {
                add_firsts(alloc, column, expr, rows, kept, numbers)?;
                Ok(())
            }
            Slot::States(_) => unreachable!(),
        },
        Item::Agg(call) => match slot {
            Slot::First(_) => unreachable!(),
            Slot::States(states) => {
                states.grow(alloc, groups)?;
                add_arguments(alloc, states, call, rows, kept, numbers)?;
                Ok(())
            }
        },
    }
}

/// Puts the values for the first rows of the groups that were opened behind those that are there.
fn add_firsts(
    alloc: Global,
    column: &mut Column,
    expr: &Expr,
    rows: &Rows,
    kept: &Kept,
    numbers: &Numbers,
) -> Result<(), NoMemory>
    requires fits { FitsExpr rows.now.kinds expr.now }
    requires kept { IsKept rows.now.rows kept.now }
    requires kind { column.old.kind ≡ item_kind rows.now.kinds (Item.Plain expr.now) }
    requires opened { All (λ at. at < length kept.now.indexes.items) numbers.now.openings.items }
    ensures kind { OnOk result (column.new.kind ≡ column.old.kind) }
    ensures values { OnOk result (column.new.values ≡ column.old.values
        ++ map (λ row. eval expr.now row)
        (rows_at (rows_at rows.now.rows kept.now.indexes.items) numbers.now.openings.items)) }
{
    let opened = indexes_at(alloc, kept.indexes.as_slice(), numbers.openings.as_slice())?;
    let more = eval_at(alloc, expr, rows, opened.as_slice())?;
    join(alloc, column, more)?;
    Ok(())
}

/// The indexes at these places.
fn indexes_at(alloc: Global, indexes: &[usize], places: &[usize]) -> Result<Vec<usize>, NoMemory>
    requires { All (λ at. at < length indexes.now) places.now }
    ensures { IfOk result (λ ps. ps.items ≡ map (λ at. slice_index_or indexes.now at 0) places.now) }
{
    let mut found = Vec::with_capacity(alloc, places.len())?;
    for place in places {
        found.push(indexes[*place])?;
    }
    Ok(found)
}

/// Puts the values of a column behind those of another of the same kind.
fn join(alloc: Global, column: &mut Column, more: Column) -> Result<(), NoMemory>
    requires { more.kind ≡ column.old.kind }
    ensures { OnOk result (column.new ≡ record column.old { values = column.old.values ++ more.values }) }
{
    if column.len() == 0 {
        *column = more;
        Ok(())
    } else {
        column.append(&more, alloc)
    }
}

/// Adds to the states of a call its arguments for further rows.
fn add_arguments(
    alloc: Global,
    states: &mut StateColumn,
    call: &AggCall,
    rows: &Rows,
    kept: &Kept,
    numbers: &Numbers,
) -> Result<(), NoMemory>
    requires fits { FitsCallOf rows.now.kinds call.now.kind call.now.argument }
    requires kept { IsKept rows.now.rows kept.now }
    requires agg { states.old.agg ≡ call.now.kind }
    requires kind { states.old.kind ≡ argument_kind rows.now.kinds call.now.argument }
    requires within { All (λ n. n < length states.old.summaries) numbers.now.groups.items }
    requires len { length numbers.now.groups.items ≡ length kept.now.indexes.items }
    ensures { OnOk result ((old : List (List Row)) → AreStates rows.now.kinds old call.now states.old
        → AreStates rows.now.kinds
        (added old numbers.now.groups.items (rows_at rows.now.rows kept.now.indexes.items))
        call.now states.new) }
{
    match &call.argument {
        Some(expr) => {
            let values = column_for(alloc, expr, rows, kept)?;
            states.add(alloc, numbers.groups.as_slice(), as_column(&values))?;
            Ok(())
        }
        None => {
            states.count(numbers.groups.as_slice());
            Ok(())
        }
    }
}

// ---- at the end

/// What an item gives for each group.
pub(crate) fn finished(alloc: Global, slot: Slot) -> Result<Column, NoMemory>
    ensures { (columns : List Kind) (groups : List (List Row)) (item : Item)
        → FitsItem columns item → IsSlot columns groups item slot
        → IfOk result (λ c. c ≡ record {
          kind = item_kind columns item;
          values = map (λ group. item_value columns group item) groups;
        }) }
{
    match slot {
        Slot::First(column) => Ok(column),
        Slot::States(states) => {
            let column = states.finish(alloc)?;
            Ok(column)
        }
    }
}

// ---- of some groups

/// What is held for the groups at these indexes, in this order, where a column is held for each item. A column
/// that was is let go before the next one is copied.
pub(crate) fn columns_at(
    alloc: Global,
    columns: Vec<Column>,
    indexes: &[usize],
) -> Result<Vec<Slot>, NoMemory>
    requires { All (λ c. All (λ at. at < length c.values) indexes.now) columns.items }
    ensures { IfOk result (λ ss. ss.items ≡ map (column_at indexes.now) columns.items) }
{
    let mut slots = Vec::with_capacity(alloc, columns.len())?;
    for column in columns {
        slots.push(Slot::First(column.gather(alloc, indexes)?))?;
    }
    Ok(slots)
}
