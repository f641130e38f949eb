//! The state of any aggregate.
ghost use Rattle.std.specs.Prelude.{◌≡◌, List, [], ◌∷◌, ◌++◌, IfOk, IsOk, OnOk, OnErr};
ghost use Rattle.pj_value.specs.declared.value.AggKind.TheVariants as aggregates;
ghost use Rattle.pj_value.specs.declared.value.Kind.{Kind};
ghost use Rattle.pj_value.specs.declared.value.Kind.TheVariants as kinds;
ghost use Rattle.pj_value.specs.declared.value.Value.{Value};
ghost use Rattle.pj_value.specs.Values.{kind_of, value_of};
ghost use Rattle.pj_value.specs.Aggregates.{aggregate_kind};
ghost use Rattle.pj_value.specs.Summaries.{Summary, Stands, IsSummary, finished, state_bytes};
ghost use Rattle.pj_agg.specs.StateColumns.{Takes, JoinsInPlace};
ghost use Rattle.pj_agg.specs.AggStates.{agg_of, summary_of, IsOf};

use crate::count_state::CountState;
use crate::max_state::MaxState;
use crate::min_state::MinState;
use crate::state::{State, StateFault};
use crate::sum_state::SumState;
use crate::uniq_state::UniqState;
use pj_value::{AggKind, Cell, Kind, List, NoMemory, Rows, Value};
use std::alloc::Global;

/// A state by its aggregate.
#[derive(Debug, Drop)]
pub enum AggState {
    /// How many values there are.
    Count(CountState),
    /// The total of numbers.
    Sum(SumState),
    /// The least value.
    Min(MinState),
    /// The greatest value.
    Max(MaxState),
    /// The distinct values.
    Uniq(UniqState),
}

/// Keys, and for each of them the states of its rows.
#[derive(Debug, Drop)]
pub struct Keyed {
    /// A row for each key.
    pub keys: Rows,
    /// A list of states for each of these rows.
    pub states: List<List<AggState>>,
}

impl AggState {
    /// The state of no values of a kind. Takes no memory.
    pub fn unit(alloc: Global, agg: AggKind, kind: Kind) -> AggState
        requires { Takes agg kind }
        ensures agg { agg_of result ≡ agg }
        ensures none { Stands agg (summary_of result) [] }
        ensures kind { IsOf kind result }
    {
        match agg {
            AggKind::Count => AggState::Count(CountState::unit(alloc, kind)),
            AggKind::Sum => AggState::Sum(SumState::unit(alloc, kind)),
            AggKind::Min => AggState::Min(MinState::unit(alloc, kind)),
            AggKind::Max => AggState::Max(MaxState::unit(alloc, kind)),
            AggKind::UniqExact => AggState::Uniq(UniqState::unit(alloc, kind)),
        }
    }

    /// The state of one value.
    pub fn lift(alloc: Global, agg: AggKind, cell: Cell<'_>) -> Result<AggState, NoMemory>
        requires { Takes agg (kind_of (value_of cell)) }
        ensures agg { IfOk result (λ s. agg_of s ≡ agg) }
        ensures one { IfOk result (λ s. Stands agg (summary_of s) (value_of cell.entry ∷ [])) }
        ensures kind { IfOk result (IsOf (kind_of (value_of cell.entry))) }
    {
        match agg {
            AggKind::Count => Ok(AggState::Count(CountState::lift(alloc, cell)?)),
            AggKind::Sum => Ok(AggState::Sum(SumState::lift(alloc, cell)?)),
            AggKind::Min => Ok(AggState::Min(MinState::lift(alloc, cell)?)),
            AggKind::Max => Ok(AggState::Max(MaxState::lift(alloc, cell)?)),
            AggKind::UniqExact => Ok(AggState::Uniq(UniqState::lift(alloc, cell)?)),
        }
    }

    /// Puts a value behind those that it stands for.
    pub fn add(&mut self, alloc: Global, cell: Cell<'_>) -> Result<(), NoMemory>
        requires { IsOf (kind_of (value_of cell)) self.old }
        ensures agg { agg_of self.new ≡ agg_of self.old }
        ensures added { OnOk result ((vs : List Value) → Stands (agg_of self.old) (summary_of self.old) vs
            → Stands (agg_of self.old) (summary_of self.new) (vs ++ value_of cell.entry ∷ [])) }
        ensures kind { (kind : Kind) → IsOf kind self.old → IsOf kind self.new }
        ensures same { OnErr result (summary_of self.new ≡ summary_of self.old) }
    {
        match self {
            AggState::Count(state) => state.add(alloc, cell),
            AggState::Sum(state) => state.add(alloc, cell),
            AggState::Min(state) => state.add(alloc, cell),
            AggState::Max(state) => state.add(alloc, cell),
            AggState::Uniq(state) => state.add(alloc, cell),
        }
    }

    /// Puts the values that another state of this aggregate stands for behind those that it stands for.
    pub fn join(&mut self, alloc: Global, other: &AggState) -> Result<(), NoMemory>
        requires agg { agg_of other.now ≡ agg_of self.old }
        requires kind { (kind : Kind) × IsOf kind self.old × IsOf kind other.now }
        ensures agg { agg_of self.new ≡ agg_of self.old }
        ensures joined { OnOk result ((vs ws : List Value)
            → Stands (agg_of self.old) (summary_of self.old) vs
            → Stands (agg_of self.old) (summary_of other.now) ws
            → Stands (agg_of self.old) (summary_of self.new) (vs ++ ws)) }
        ensures kind { (kind : Kind) → IsOf kind self.old → IsOf kind self.new }
        ensures same { OnErr result (summary_of self.new ≡ summary_of self.old) }
        ensures memory { (kind : Kind) → IsOf kind self.old → JoinsInPlace (agg_of self.old) kind
            → IsOk result }
    {
        match (self, other) {
            (AggState::Count(state), AggState::Count(more)) => state.join(alloc, more),
            (AggState::Sum(state), AggState::Sum(more)) => state.join(alloc, more),
            (AggState::Min(state), AggState::Min(more)) => state.join(alloc, more),
            (AggState::Max(state), AggState::Max(more)) => state.join(alloc, more),
            (AggState::Uniq(state), AggState::Uniq(more)) => state.join(alloc, more),
            _ => unreachable!(),
        }
    }

    /// The aggregate of the values that it stands for.
    pub fn finish(&self, alloc: Global) -> Result<Value, NoMemory>
        ensures value { IfOk result
            (λ v. (kind : Kind) → IsOf kind self.now → v ≡ finished kind (summary_of self.now)) }
        ensures kind { IfOk result
            (λ v. (kind : Kind) → IsOf kind self.now → kind_of v ≡ aggregate_kind (agg_of self.now) kind) }
    {
        match self {
            AggState::Count(state) => state.finish(alloc),
            AggState::Sum(state) => state.finish(alloc),
            AggState::Min(state) => state.finish(alloc),
            AggState::Max(state) => state.finish(alloc),
            AggState::Uniq(state) => state.finish(alloc),
        }
    }

    /// Writes its bytes behind others, or nothing.
    pub fn encode(&self, out: &mut Vec<u8>) -> Result<(), NoMemory>
        ensures bytes { OnOk result
            (out.new.items ≡ out.old.items ++ state_bytes (summary_of self.now)) }
        ensures whole { OnOk result ((kind : Kind) → IsOf kind self.now
            → IsSummary (agg_of self.now) kind (summary_of self.now)) }
        ensures same { OnErr result (out.new.items ≡ out.old.items) }
    {
        match self {
            AggState::Count(state) => state.encode(out),
            AggState::Sum(state) => state.encode(out),
            AggState::Min(state) => state.encode(out),
            AggState::Max(state) => state.encode(out),
            AggState::Uniq(state) => state.encode(out),
        }
    }

    /// The state of an aggregate of values of a kind that has these bytes.
    pub fn decode(
        alloc: Global,
        agg: AggKind,
        kind: Kind,
        bytes: &[u8],
    ) -> Result<AggState, StateFault>
        ensures agg { IfOk result (λ s. agg_of s ≡ agg) }
        ensures bytes { IfOk result (λ s. state_bytes (summary_of s) ≡ bytes.now) }
        ensures whole { IfOk result (λ s. IsSummary agg kind (summary_of s)) }
        ensures kind { IfOk result (IsOf kind) }
        ensures damaged { result ≡ Err StateFault.Damaged
            → (s : Summary) → IsSummary agg kind s → state_bytes s ≡ bytes.now → ⊥ }
    {
        match agg {
            AggKind::Count => Ok(AggState::Count(CountState::decode(alloc, kind, bytes)?)),
            AggKind::Sum => Ok(AggState::Sum(SumState::decode(alloc, kind, bytes)?)),
            AggKind::Min => Ok(AggState::Min(MinState::decode(alloc, kind, bytes)?)),
            AggKind::Max => Ok(AggState::Max(MaxState::decode(alloc, kind, bytes)?)),
            AggKind::UniqExact => Ok(AggState::Uniq(UniqState::decode(alloc, kind, bytes)?)),
        }
    }
}
