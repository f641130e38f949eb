//! The state of `count`: how many values there are.
ghost use Rattle.std.specs.Prelude.{◌≡◌, ◌+◌, ◌%◌, ◌^◌};
ghost use Rattle.pj_value.specs.declared.value.AggKind.TheVariants as aggregates;
ghost use Rattle.pj_value.specs.Summaries.{Number};

use crate::bytes::{number_alone, write_number};
use crate::state::{State, StateFault};
use pj_value::{Cell, Kind, NoMemory, Value};
use std::alloc::Global;

/// How many values there are, modulo 2^64.
#[derive(Debug, Drop)]
pub struct CountState {
    count: u64,
}

impl CountState {
    /// Counts one more value, of whatever kind. Takes no memory.
    pub(crate) fn count_one(&mut self)
        ensures { self.new.count ≡ (self.old.count + 1) % 2 ^ 64 }
    {
        self.count = self.count.wrapping_add(1);
    }
}

impl State for CountState {
    ghost agg = { aggregates.Count };

    ghost summary = { λ s. Number s.count };

    ghost takes = { λ _. Unit {0} };

    ghost is_of = { λ _ _. Unit {0} };

    fn unit(_alloc: Global, _kind: Kind) -> Self {
        CountState { count: 0 }
    }

    fn lift(_alloc: Global, _cell: Cell<'_>) -> Result<Self, NoMemory> {
        Ok(CountState { count: 1 })
    }

    fn add(&mut self, _alloc: Global, _cell: Cell<'_>) -> Result<(), NoMemory> {
        self.count_one();
        Ok(())
    }

    fn join(&mut self, _alloc: Global, other: &Self) -> Result<(), NoMemory> {
        self.count = self.count.wrapping_add(other.count);
        Ok(())
    }

    fn finish(&self, _alloc: Global) -> Result<Value, NoMemory> {
        Ok(Value::Num(self.count))
    }

    fn encode(&self, out: &mut Vec<u8>) -> Result<(), NoMemory> {
        write_number(out, self.count)
    }

    fn decode(_alloc: Global, _kind: Kind, bytes: &[u8]) -> Result<Self, StateFault> {
        match number_alone(bytes) {
            Some(count) => Ok(CountState { count }),
            None => Err(StateFault::Damaged),
        }
    }
}
