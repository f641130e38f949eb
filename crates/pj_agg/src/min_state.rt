//! The state of `min`: the least value, where there is one.
ghost use Rattle.std.specs.Prelude.{◌≡◌};
ghost use Rattle.pj_value.specs.declared.value.AggKind.TheVariants as aggregates;
ghost use Rattle.pj_value.specs.Summaries.{Extreme};
ghost use Rattle.pj_agg.specs.States.{kept_kind, kept_value};

use crate::kept::{End, Kept};
use crate::state::{State, StateFault};
use pj_value::{Cell, Kind, NoMemory, Value};
use std::alloc::Global;

/// The least of values of a kind, where there is one.
#[derive(Debug, Drop)]
pub struct MinState {
    kept: Kept,
}

impl State for MinState {
    ghost agg = { aggregates.Min };

    ghost summary = { λ s. Extreme (kept_value s.kept) };

    ghost takes = { λ _. Unit {0} };

    ghost is_of = { λ kind s. kept_kind s.kept ≡ kind };

    fn unit(_alloc: Global, kind: Kind) -> Self {
        let kept = Kept::none(kind);
        MinState { kept }
    }

    fn lift(alloc: Global, cell: Cell<'_>) -> Result<Self, NoMemory> {
        let kept = Kept::one(alloc, cell)?;
        Ok(MinState { kept })
    }

    fn add(&mut self, alloc: Global, cell: Cell<'_>) -> Result<(), NoMemory> {
        self.kept.add(alloc, cell, End::Least)
    }

    fn join(&mut self, alloc: Global, other: &Self) -> Result<(), NoMemory> {
        self.kept.join(alloc, &other.kept, End::Least)
    }

    fn finish(&self, alloc: Global) -> Result<Value, NoMemory> {
        self.kept.finish(alloc)
    }

    fn encode(&self, out: &mut Vec<u8>) -> Result<(), NoMemory> {
        self.kept.encode(out)
    }

    fn decode(alloc: Global, kind: Kind, bytes: &[u8]) -> Result<Self, StateFault> {
        let kept = Kept::decode(alloc, kind, bytes)?;
        Ok(MinState { kept })
    }
}
