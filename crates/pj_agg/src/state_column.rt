//! The states of one call, one for each group.
ghost use Rattle.std.specs.Prelude.{◌≡◌, ◌<◌, ◌≤◌, List, [], length, map, max, take, IfOk, OnOk};
ghost use Rattle.std.specs.List.{All, AllZip};
ghost use Rattle.pj_value.specs.declared.value.AggKind.TheVariants as aggregates;
ghost use Rattle.pj_value.specs.declared.value.Kind.{Kind};
ghost use Rattle.pj_value.specs.declared.value.Value.{Value};
ghost use Rattle.pj_value.specs.Summaries.{Stands, Number};
ghost use Rattle.pj_agg.specs.Groups.{added, grown};
ghost use Rattle.pj_agg.specs.StateColumns.{Takes, finished_column};

use crate::count_state::CountState;
use crate::groups::{add_values, finish_states, grow_states};
use crate::max_state::MaxState;
use crate::min_state::MinState;
use crate::state::State;
use crate::sum_state::SumState;
use crate::uniq_state::UniqState;
use pj_value::{AggKind, Column, Kind, NoMemory};
use std::alloc::Global;
use std::marker::Model;

/// The states, by their aggregate.
#[derive(Debug, Drop)]
enum States {
    Count(Vec<CountState>),
    Sum(Vec<SumState>),
    Min(Vec<MinState>),
    Max(Vec<MaxState>),
    Uniq(Vec<UniqState>),
}

/// The states of one call, one for each group. Groups are numbered from 0.
///
/// Contracts see the aggregate, the kind of its argument, and what the state of each group keeps.
#[derive(Debug, Drop)]
pub struct StateColumn {
    kind: Kind,
    states: States,
}

impl Model for StateColumn {
    ghost use Rattle.pj_agg.specs.StateColumns.{KindedSummaries, Takes};

    ghost Value = { KindedSummaries };

    ghost use Rattle.pj_agg.specs.Layout.{states_agg, states_summaries, AreStatesOf};

    ghost view = { λ c. record {
      agg = states_agg c.states;
      kind = c.kind;
      summaries = states_summaries c.states;
    } };

    ghost invariant = { λ c. AreStatesOf c.kind c.states };
}

impl StateColumn {
    /// No states of an aggregate of values of this kind. Takes no memory.
    pub fn new(alloc: Global, agg: AggKind, kind: Kind) -> StateColumn
        requires { Takes agg kind }
        ensures { result ≡ record { agg = agg; kind = kind; summaries = [] } }
    {
        let states = match agg {
            AggKind::Count => States::Count(Vec::new(alloc)),
            AggKind::Sum => States::Sum(Vec::new(alloc)),
            AggKind::Min => States::Min(Vec::new(alloc)),
            AggKind::Max => States::Max(Vec::new(alloc)),
            AggKind::UniqExact => States::Uniq(Vec::new(alloc)),
        };
        StateColumn { kind, states }
    }

    /// How many states there are.
    pub fn len(&self) -> usize
        ensures { result ≡ length self.now.summaries }
    {
        match &self.states {
            States::Count(states) => states.len(),
            States::Sum(states) => states.len(),
            States::Min(states) => states.len(),
            States::Max(states) => states.len(),
            States::Uniq(states) => states.len(),
        }
    }

    /// Puts states of no values behind the others, up to so many. After an error fewer of them may stand there.
    pub fn grow(&mut self, alloc: Global, len: usize) -> Result<(), NoMemory>
        ensures agg { self.new.agg ≡ self.old.agg }
        ensures kind { self.new.kind ≡ self.old.kind }
        ensures len { OnOk result (length self.new.summaries ≡ max (length self.old.summaries) len) }
        ensures grown { OnOk result ((groups : List (List Value))
            → AllZip (Stands self.old.agg) self.old.summaries groups
            → AllZip (Stands self.old.agg) self.new.summaries (grown groups len)) }
        ensures more { length self.old.summaries ≤ length self.new.summaries }
        ensures kept { take (length self.old.summaries) self.new.summaries ≡ self.old.summaries }
    {
        match &mut self.states {
            States::Count(states) => grow_states(states, alloc, self.kind, len),
            States::Sum(states) => grow_states(states, alloc, self.kind, len),
            States::Min(states) => grow_states(states, alloc, self.kind, len),
            States::Max(states) => grow_states(states, alloc, self.kind, len),
            States::Uniq(states) => grow_states(states, alloc, self.kind, len),
        }
    }

    /// Puts each value behind those of the group of its number. After an error some of them may have been put
    /// there: then the states are to be let go of.
    pub fn add(&mut self, alloc: Global, numbers: &[usize], values: &Column) -> Result<(), NoMemory>
        requires len { length values.now.values ≡ length numbers.now }
        requires within { All (λ n. n < length self.old.summaries) numbers.now }
        requires kind { values.now.kind ≡ self.old.kind }
        ensures agg { self.new.agg ≡ self.old.agg }
        ensures kind { self.new.kind ≡ self.old.kind }
        ensures len { length self.new.summaries ≡ length self.old.summaries }
        ensures added { OnOk result ((groups : List (List Value))
            → AllZip (Stands self.old.agg) self.old.summaries groups
            → AllZip (Stands self.old.agg) self.new.summaries (added groups numbers.now values.now.values)) }
    {
        match &mut self.states {
            States::Count(states) => {
                count_values(states, numbers);
                Ok(())
            }
            States::Sum(states) => add_column(states, alloc, numbers, values),
            States::Min(states) => add_column(states, alloc, numbers, values),
            States::Max(states) => add_column(states, alloc, numbers, values),
            States::Uniq(states) => add_column(states, alloc, numbers, values),
        }
    }

    /// Counts one more value in the group of each number, of whatever kind. Takes no memory.
    pub fn count(&mut self, numbers: &[usize])
        requires agg { self.old.agg ≡ aggregates.Count }
        requires within { All (λ n. n < length self.old.summaries) numbers.now }
        ensures agg { self.new.agg ≡ self.old.agg }
        ensures kind { self.new.kind ≡ self.old.kind }
        ensures len { length self.new.summaries ≡ length self.old.summaries }
        ensures counted { (groups : List (List Value)) (values : List Value)
            → length values ≡ length numbers.now
            → AllZip (Stands self.old.agg) self.old.summaries groups
            → AllZip (Stands self.old.agg) self.new.summaries (added groups numbers.now values) }
    {
        match &mut self.states {
            States::Count(states) => count_values(states, numbers),
            _ => unreachable!(),
        }
    }

    /// The aggregate of each group.
    pub fn finish(&self, alloc: Global) -> Result<Column, NoMemory>
        ensures { IfOk result (λ column. column ≡ finished_column self.now) }
    {
        let kind = self.kind;
        match &self.states {
            States::Count(states) => finish_states(states, alloc, AggKind::Count, kind),
            States::Sum(states) => finish_states(states, alloc, AggKind::Sum, kind),
            States::Min(states) => finish_states(states, alloc, AggKind::Min, kind),
            States::Max(states) => finish_states(states, alloc, AggKind::Max, kind),
            States::Uniq(states) => finish_states(states, alloc, AggKind::UniqExact, kind),
        }
    }
}

/// Puts each value of a column behind those of the group of its number.
fn add_column<S: State>(
    states: &mut Vec<S>,
    alloc: Global,
    numbers: &[usize],
    values: &Column,
) -> Result<(), NoMemory>
    requires len { length values.now.values ≡ length numbers.now }
    requires within { All (λ n. n < length states.old.items) numbers.now }
    requires kind { All (S.is_of values.now.kind) states.old.items }
    ensures added { OnOk result ((groups : List (List Value))
        → AllZip (Stands S.agg) (map S.summary states.old.items) groups
        → AllZip (Stands S.agg) (map S.summary states.new.items)
        (added groups numbers.now values.now.values)) }
    ensures kind { (kind : Kind) → All (S.is_of kind) states.old.items → All (S.is_of kind) states.new.items }
    ensures len { length states.new.items ≡ length states.old.items }
{
    match values.numbers() {
        Some(values) => add_values(states, alloc, numbers, values),
        None => match values.texts() {
            Some(values) => add_values(states, alloc, numbers, values),
            None => unreachable!(),
        },
    }
}

/// Counts one more value in the group of each number.
fn count_values(states: &mut Vec<CountState>, numbers: &[usize])
    requires { All (λ n. n < length states.old.items) numbers.now }
    ensures counted { (groups : List (List Value)) (values : List Value)
        → length values ≡ length numbers.now
        → AllZip (Stands aggregates.Count) (map (λ s. Number s.count) states.old.items) groups
        → AllZip (Stands aggregates.Count) (map (λ s. Number s.count) states.new.items)
        (added groups numbers.now values) }
    ensures len { length states.new.items ≡ length states.old.items }
{
    'rows: for number in numbers {
        states[*number].count_one();
    }
}
