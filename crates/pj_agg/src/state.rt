//! What a state of an aggregate is: it stands for a list of values, and keeps a summary in their place.
ghost use Rattle.std.specs.Prelude.{◌≡◌, List, [], ◌∷◌, ◌++◌, IfOk, IsOk, OnOk, OnErr};
ghost use Rattle.pj_value.specs.declared.value.AggKind.{AggKind};
ghost use Rattle.pj_value.specs.declared.value.Kind.{Kind};
ghost use Rattle.pj_value.specs.declared.value.Value.{Value};
ghost use Rattle.pj_value.specs.Values.{kind_of, value_of};
ghost use Rattle.pj_value.specs.Aggregates.{aggregate_kind};
ghost use Rattle.pj_value.specs.Summaries.{Summary, Stands, IsSummary, finished, state_bytes};
ghost use Rattle.pj_agg.specs.StateColumns.{JoinsInPlace};
ghost use Rattle.pj_agg.specs.declared.state.StateFault.TheVariants as faults;

use pj_value::{Cell, Kind, NoMemory, Value};
use std::alloc::{AllocError, AllocFailed, Global};
use thiserror::Error;

/// Why bytes were not read as a state.
#[derive(Clone, Copy, Debug, PartialEq, Eq, Error)]
pub enum StateFault {
    /// They are the bytes of no state.
    #[error("damaged state")]
    Damaged,
    /// Out of memory for the state. The bytes may be those of one or not.
    #[error("out of memory")]
    NoMemory,
}

impl From<NoMemory> for StateFault {
    ghost from_gives = { λ _ e. e ≡ faults.NoMemory };

    fn from(_e: NoMemory) -> StateFault {
        StateFault::NoMemory
    }
}

impl From<AllocError> for StateFault {
    ghost from_gives = { λ _ e. e ≡ faults.NoMemory };

    fn from(_e: AllocError) -> StateFault {
        StateFault::NoMemory
    }
}

impl<T: Drop> From<AllocFailed<T>> for StateFault {
    ghost from_gives = { λ _ e. e ≡ faults.NoMemory };

    fn from(_e: AllocFailed<T>) -> StateFault {
        StateFault::NoMemory
    }
}

/// A state of an aggregate of values of a kind.
pub trait State: Sized + Drop {
    // The aggregate whose states these are.
    ghost agg: { AggKind };

    // What a state keeps in place of the values.
    ghost summary: { Self → Summary };

    // There are states of values of this kind.
    ghost takes: { Kind → Type 0 };

    // The state is one of values of this kind.
    ghost is_of: { Kind → Self → Type 0 };

    /// The state of no values. Takes no memory.
    fn unit(alloc: Global, kind: Kind) -> Self
        requires { takes kind }
        ensures none { Stands agg (summary result) [] }
        ensures kind { is_of kind result };

    /// The state of one value.
    fn lift(alloc: Global, cell: Cell<'_>) -> Result<Self, NoMemory>
        requires { takes (kind_of (value_of cell)) }
        ensures one { IfOk result (λ s. Stands agg (summary s) (value_of cell.entry ∷ [])) }
        ensures kind { IfOk result (is_of (kind_of (value_of cell.entry))) };

    /// Puts a value behind those that it stands for.
    fn add(&mut self, alloc: Global, cell: Cell<'_>) -> Result<(), NoMemory>
        requires { is_of (kind_of (value_of cell)) self.old }
        ensures added { OnOk result ((vs : List Value) → Stands agg (summary self.old) vs
            → Stands agg (summary self.new) (vs ++ value_of cell.entry ∷ [])) }
        ensures kind { (kind : Kind) → is_of kind self.old → is_of kind self.new }
        ensures same { OnErr result (summary self.new ≡ summary self.old) };

    /// Puts the values that another state stands for behind those that it stands for.
    fn join(&mut self, alloc: Global, other: &Self) -> Result<(), NoMemory>
        requires { (kind : Kind) × is_of kind self.old × is_of kind other.now }
        ensures joined { OnOk result ((vs ws : List Value) → Stands agg (summary self.old) vs
            → Stands agg (summary other.now) ws → Stands agg (summary self.new) (vs ++ ws)) }
        ensures kind { (kind : Kind) → is_of kind self.old → is_of kind self.new }
        ensures same { OnErr result (summary self.new ≡ summary self.old) }
        ensures memory { (kind : Kind) → is_of kind self.old → JoinsInPlace agg kind → IsOk result };

    /// The aggregate of the values that it stands for.
    fn finish(&self, alloc: Global) -> Result<Value, NoMemory>
        ensures value { IfOk result
            (λ v. (kind : Kind) → is_of kind self.now → v ≡ finished kind (summary self.now)) }
        ensures kind { IfOk result
            (λ v. (kind : Kind) → is_of kind self.now → kind_of v ≡ aggregate_kind agg kind) };

    /// Writes its bytes behind others, or nothing.
    fn encode(&self, out: &mut Vec<u8>) -> Result<(), NoMemory>
        ensures bytes { OnOk result (out.new.items ≡ out.old.items ++ state_bytes (summary self.now)) }
        ensures whole { OnOk result
            ((kind : Kind) → is_of kind self.now → IsSummary agg kind (summary self.now)) }
        ensures same { OnErr result (out.new.items ≡ out.old.items) };

    /// The state of values of this kind that has these bytes.
    fn decode(alloc: Global, kind: Kind, bytes: &[u8]) -> Result<Self, StateFault>
        ensures bytes { IfOk result (λ s. state_bytes (summary s) ≡ bytes.now) }
        ensures whole { IfOk result (λ s. IsSummary agg kind (summary s)) }
        ensures kind { IfOk result (is_of kind) }
        ensures damaged { result ≡ Err StateFault.Damaged
            → (s : Summary) → IsSummary agg kind s → state_bytes s ≡ bytes.now → ⊥ };
}
