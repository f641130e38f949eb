//! The states of groups that are numbered from 0, for any kind of state.
ghost use Rattle.std.specs.Prelude.{◌≡◌, ◌<◌, ◌≤◌, List, [], ◌∷◌, ◌++◌, length, map, max, take, IfOk, OnOk};
ghost use Rattle.std.specs.List.{All, AllZip};
ghost use Rattle.pj_value.specs.declared.value.Kind.{Kind};
ghost use Rattle.pj_value.specs.declared.value.Value.{Value};
ghost use Rattle.pj_value.specs.Values.{kind_of, value_of};
ghost use Rattle.pj_value.specs.Aggregates.{aggregate_kind};
ghost use Rattle.pj_value.specs.Summaries.{Stands, finished};
ghost use Rattle.pj_agg.specs.Groups.{added, grown};

use crate::item::Item;
use crate::state::State;
use pj_value::{AggKind, Cell, Column, Kind, NoMemory, PushFault};
use std::alloc::Global;

/// Puts states of no values behind the others, up to so many.
pub(crate) fn grow_states<S: State>(
    states: &mut Vec<S>,
    alloc: Global,
    kind: Kind,
    len: usize,
) -> Result<(), NoMemory>
    requires { S.takes kind }
    ensures grown { OnOk result ((groups : List (List Value))
        → AllZip (Stands S.agg) (map S.summary states.old.items) groups
        → AllZip (Stands S.agg) (map S.summary states.new.items) (grown groups len)) }
    ensures kind { All (S.is_of kind) states.old.items → All (S.is_of kind) states.new.items }
    ensures len { OnOk result (length states.new.items ≡ max (length states.old.items) len) }
    ensures more { length states.old.items ≤ length states.new.items }
    ensures kept { take (length (map S.summary states.old.items)) (map S.summary states.new.items)
        ≡ map S.summary states.old.items }
{
    'more: while states.len() < len {
        states.push(S::unit(alloc, kind))?;
    }
    Ok(())
}

/// Puts each value behind those of the group of its number.
pub(crate) fn add_values<S: State, T: Item>(
    states: &mut Vec<S>,
    alloc: Global,
    numbers: &[usize],
    values: &[T],
) -> Result<(), NoMemory>
    requires len { length values.now ≡ length numbers.now }
    requires within { All (λ n. n < length states.old.items) numbers.now }
    requires kind { All (S.is_of T.kind) states.old.items }
    ensures added { OnOk result ((groups : List (List Value))
        → AllZip (Stands S.agg) (map S.summary states.old.items) groups
        → AllZip (Stands S.agg) (map S.summary states.new.items)
        (added groups numbers.now (map T.value values.now))) }
    ensures kind { (kind : Kind) → All (S.is_of kind) states.old.items → All (S.is_of kind) states.new.items }
    ensures len { length states.new.items ≡ length states.old.items }
{
    'rows: for at in 0..numbers.len() {
        add_value(states, alloc, numbers[at], values[at].as_cell())?;
    }
    Ok(())
}

/// Puts a value behind those of a group.
fn add_value<S: State>(
    states: &mut Vec<S>,
    alloc: Global,
    number: usize,
    cell: Cell<'_>,
) -> Result<(), NoMemory>
    requires within { number < length states.old.items }
    requires kind { All (S.is_of (kind_of (value_of cell))) states.old.items }
    ensures added { OnOk result ((groups : List (List Value))
        → AllZip (Stands S.agg) (map S.summary states.old.items) groups
        → AllZip (Stands S.agg) (map S.summary states.new.items)
        (added groups (number ∷ []) (value_of cell.entry ∷ []))) }
    ensures kind { (kind : Kind) → All (S.is_of kind) states.old.items → All (S.is_of kind) states.new.items }
    ensures len { length states.new.items ≡ length states.old.items }
{
    states[number].add(alloc, cell)
}

/// The aggregate of each group.
pub(crate) fn finish_states<S: State>(
    states: &[S],
    alloc: Global,
    agg: AggKind,
    kind: Kind,
) -> Result<Column, NoMemory>
    requires agg { agg ≡ S.agg }
    requires kind { All (S.is_of kind) states.now }
    ensures { IfOk result (λ column. column ≡ record {
      kind = aggregate_kind agg kind;
      values = map (finished kind) (map S.summary states.now);
    }) }
{
    let mut column = Column::new(alloc, kind_of_aggregate(agg, kind));
    'states: for state in states {
        push_finished(&mut column, alloc, state)?;
    }
    Ok(column)
}

/// The kind of an aggregate of values of a kind.
fn kind_of_aggregate(agg: AggKind, kind: Kind) -> Kind
    ensures { result ≡ aggregate_kind agg kind }
{
    match agg {
        AggKind::Min | AggKind::Max => kind,
        AggKind::Count | AggKind::Sum | AggKind::UniqExact => Kind::Num,
    }
}

/// Puts the aggregate of a group behind those of others.
fn push_finished<S: State>(column: &mut Column, alloc: Global, state: &S) -> Result<(), NoMemory>
    requires { (kind : Kind) × S.is_of kind state.now × (column.old.kind ≡ aggregate_kind S.agg kind) }
    ensures { OnOk result ((kind : Kind) → S.is_of kind state.now → column.new
        ≡ record column.old { values = column.old.values ++ finished kind (S.summary state.now) ∷ [] }) }
{
    let value = state.finish(alloc)?;
    match column.push(value) {
        Ok(()) => Ok(()),
        Err(PushFault::NoMemory) => Err(NoMemory),
        Err(PushFault::WrongShape) => unreachable!(),
    }
}
