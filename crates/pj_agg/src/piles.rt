//! Distinct values of either kind.
ghost use Rattle.std.specs.Prelude.{◌≡◌, List, [], ◌∷◌, ◌++◌, length, IfOk, OnOk, OnErr};
ghost use Rattle.pj_value.specs.declared.value.AggKind.TheVariants as aggregates;
ghost use Rattle.pj_value.specs.declared.value.Value.{Value};
ghost use Rattle.pj_value.specs.Values.{kind_of, value_of};
ghost use Rattle.pj_value.specs.Summaries.{HaveSameValues, IsSummary, Distinct, state_bytes};
ghost use Rattle.pj_agg.specs.InOrder.{in_order};
ghost use Rattle.pj_agg.specs.States.{piles_kind, piles_values};

use crate::pile::Pile;
use crate::state::StateFault;
use pj_value::{Cell, Kind, NoMemory, Text};
use std::alloc::Global;

/// The values that are kept, by their kind.
#[derive(Debug, Drop)]
pub(crate) enum Piles {
    Num(Pile<u64>),
    Text(Pile<Text>),
}

impl Piles {
    /// No values of this kind. Takes no memory.
    pub(crate) fn none(alloc: Global, kind: Kind) -> Piles
        ensures kind { piles_kind result ≡ kind }
        ensures values { piles_values result ≡ [] }
    {
        match kind {
            Kind::Num => Piles::Num(Pile::new(alloc)),
            Kind::Text => Piles::Text(Pile::new(alloc)),
        }
    }

    /// This value.
    pub(crate) fn one(alloc: Global, cell: Cell<'_>) -> Result<Piles, NoMemory>
        ensures kind { IfOk result (λ p. piles_kind p ≡ kind_of (value_of cell.entry)) }
        ensures values { IfOk result
            (λ p. HaveSameValues (piles_values p) (value_of cell.entry ∷ [])) }
    {
        let mut piles = match cell {
            Cell::Num(_) => Piles::Num(Pile::new(alloc)),
            Cell::Text(_) => Piles::Text(Pile::new(alloc)),
        };
        piles.add(alloc, cell)?;
        Ok(piles)
    }

    /// Puts a value to the others.
    pub(crate) fn add(&mut self, alloc: Global, cell: Cell<'_>) -> Result<(), NoMemory>
        requires { piles_kind self.old ≡ kind_of (value_of cell) }
        ensures kind { piles_kind self.new ≡ piles_kind self.old }
        ensures added { OnOk result
            (HaveSameValues (piles_values self.new) (piles_values self.old ++ value_of cell.entry ∷ [])) }
        ensures same { OnErr result (HaveSameValues (piles_values self.new) (piles_values self.old)) }
    {
        match self {
            Piles::Num(pile) => pile.add(alloc, cell),
            Piles::Text(pile) => pile.add(alloc, cell),
        }
    }

    /// Puts the values of others of this kind to these.
    pub(crate) fn join(&mut self, alloc: Global, other: &Piles) -> Result<(), NoMemory>
        requires { piles_kind other.now ≡ piles_kind self.old }
        ensures kind { piles_kind self.new ≡ piles_kind self.old }
        ensures joined { OnOk result
            (HaveSameValues (piles_values self.new) (piles_values self.old ++ piles_values other.now)) }
        ensures same { OnErr result (HaveSameValues (piles_values self.new) (piles_values self.old)) }
    {
        match (self, other) {
            (Piles::Num(pile), Piles::Num(more)) => pile.join(alloc, more),
            (Piles::Text(pile), Piles::Text(more)) => pile.join(alloc, more),
            _ => unreachable!(),
        }
    }

    /// How many distinct values there are. Takes memory only for fresh ones.
    pub(crate) fn distinct_len(&self, alloc: Global) -> Result<usize, NoMemory>
        ensures { IfOk result (λ n. n ≡ length (in_order (piles_values self.now))) }
    {
        match self {
            Piles::Num(pile) => pile.distinct_len(alloc),
            Piles::Text(pile) => pile.distinct_len(alloc),
        }
    }

    /// Writes the bytes of the distinct values behind others, or nothing.
    pub(crate) fn encode(&self, out: &mut Vec<u8>) -> Result<(), NoMemory>
        ensures bytes { OnOk result
            (out.new.items ≡ out.old.items ++ state_bytes (Distinct (in_order (piles_values self.now)))) }
        ensures whole { OnOk result
            (IsSummary aggregates.UniqExact (piles_kind self.now) (Distinct (in_order (piles_values self.now)))) }
        ensures same { OnErr result (out.new.items ≡ out.old.items) }
    {
        match self {
            Piles::Num(pile) => pile.encode(out),
            Piles::Text(pile) => pile.encode(out),
        }
    }

    /// The distinct values of this kind that have these bytes.
    pub(crate) fn decode(alloc: Global, kind: Kind, bytes: &[u8]) -> Result<Piles, StateFault>
        ensures bytes { IfOk result
            (λ p. state_bytes (Distinct (in_order (piles_values p))) ≡ bytes.now) }
        ensures whole { IfOk result
            (λ p. IsSummary aggregates.UniqExact kind (Distinct (in_order (piles_values p)))) }
        ensures kind { IfOk result (λ p. piles_kind p ≡ kind) }
        ensures damaged { result ≡ Err StateFault.Damaged → (found : List Value)
            → IsSummary aggregates.UniqExact kind (Distinct found)
            → state_bytes (Distinct found) ≡ bytes.now → ⊥ }
    {
        match kind {
            Kind::Num => Ok(Piles::Num(Pile::decode(alloc, bytes)?)),
            Kind::Text => Ok(Piles::Text(Pile::decode(alloc, bytes)?)),
        }
    }
}
