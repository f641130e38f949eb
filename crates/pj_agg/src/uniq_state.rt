//! The state of `uniqExact`: the distinct values.
ghost use Rattle.std.specs.Prelude.{◌≡◌};
ghost use Rattle.pj_value.specs.declared.value.AggKind.TheVariants as aggregates;
ghost use Rattle.pj_value.specs.Summaries.{Distinct};
ghost use Rattle.pj_agg.specs.InOrder.{in_order};
ghost use Rattle.pj_agg.specs.States.{piles_kind, piles_values};

use crate::piles::Piles;
use crate::state::{State, StateFault};
use pj_value::{Cell, Kind, NoMemory, Value};
use std::alloc::Global;

/// The distinct ones of values of a kind.
///
/// To add n values in any order takes n log n comparisons, to join another state time linear in the two, and in
/// the longer run in the other alone. A few values take one block of memory.
#[derive(Debug, Drop)]
pub struct UniqState {
    piles: Piles,
}

impl State for UniqState {
    ghost agg = { aggregates.UniqExact };

    ghost summary = { λ s. Distinct (in_order (piles_values s.piles)) };

    ghost takes = { λ _. Unit {0} };

    ghost is_of = { λ kind s. piles_kind s.piles ≡ kind };

    fn unit(alloc: Global, kind: Kind) -> Self {
        let piles = Piles::none(alloc, kind);
        UniqState { piles }
    }

    fn lift(alloc: Global, cell: Cell<'_>) -> Result<Self, NoMemory> {
        let piles = Piles::one(alloc, cell)?;
        Ok(UniqState { piles })
    }

    fn add(&mut self, alloc: Global, cell: Cell<'_>) -> Result<(), NoMemory> {
        self.piles.add(alloc, cell)
    }

    fn join(&mut self, alloc: Global, other: &Self) -> Result<(), NoMemory> {
        self.piles.join(alloc, &other.piles)
    }

    fn finish(&self, alloc: Global) -> Result<Value, NoMemory> {
        let len = self.piles.distinct_len(alloc)?;
        Ok(Value::Num(len as u64))
    }

    fn encode(&self, out: &mut Vec<u8>) -> Result<(), NoMemory> {
        self.piles.encode(out)
    }

    fn decode(alloc: Global, kind: Kind, bytes: &[u8]) -> Result<Self, StateFault> {
        let piles = Piles::decode(alloc, kind, bytes)?;
        Ok(UniqState { piles })
    }
}
