//! The state of `sum`: the total of numbers.
ghost use Rattle.std.specs.Prelude.{◌≡◌};
ghost use Rattle.pj_value.specs.declared.value.AggKind.TheVariants as aggregates;
ghost use Rattle.pj_value.specs.declared.value.Kind.TheVariants as kinds;
ghost use Rattle.pj_value.specs.Values.{kind_of, value_of};
ghost use Rattle.pj_value.specs.Aggregates.{number_in};
ghost use Rattle.pj_value.specs.Summaries.{Number};

use crate::bytes::{number_alone, write_number};
use crate::state::{State, StateFault};
use pj_value::{Cell, Kind, NoMemory, Value};
use std::alloc::Global;

/// The total of numbers, modulo 2^64.
#[derive(Debug, Drop)]
pub struct SumState {
    total: u64,
}

impl State for SumState {
    ghost agg = { aggregates.Sum };

    ghost summary = { λ s. Number s.total };

    ghost takes = { λ kind. kind ≡ kinds.Num };

    ghost is_of = { λ kind _. kind ≡ kinds.Num };

    fn unit(_alloc: Global, _kind: Kind) -> Self {
        SumState { total: 0 }
    }

    fn lift(_alloc: Global, cell: Cell<'_>) -> Result<Self, NoMemory> {
        let total = number_of(cell);
        Ok(SumState { total })
    }

    fn add(&mut self, _alloc: Global, cell: Cell<'_>) -> Result<(), NoMemory> {
        self.total = self.total.wrapping_add(number_of(cell));
        Ok(())
    }

    fn join(&mut self, _alloc: Global, other: &Self) -> Result<(), NoMemory> {
        self.total = self.total.wrapping_add(other.total);
        Ok(())
    }

    fn finish(&self, _alloc: Global) -> Result<Value, NoMemory> {
        Ok(Value::Num(self.total))
    }

    fn encode(&self, out: &mut Vec<u8>) -> Result<(), NoMemory> {
        write_number(out, self.total)
    }

    fn decode(_alloc: Global, kind: Kind, bytes: &[u8]) -> Result<Self, StateFault> {
        match (kind, number_alone(bytes)) {
            (Kind::Num, Some(total)) => Ok(SumState { total }),
            _ => Err(StateFault::Damaged),
        }
    }
}

/// The number that a cell lends.
fn number_of(cell: Cell<'_>) -> u64
    requires { kind_of (value_of cell) ≡ kinds.Num }
    ensures { result ≡ number_in (value_of cell.entry) }
{
    match cell {
        Cell::Num(number) => number,
        Cell::Text(_) => unreachable!(),
    }
}
