//! Distinct values of one kind: those in their order, and behind them fresh ones that are sorted in when they are
//! as many.
ghost use Rattle.std.specs.Prelude.{◌≡◌, ◌≤◌, List, [], ◌∷◌, ◌++◌, true, length, map, take, vec_len};
ghost use Rattle.std.specs.Prelude.{IfOk, OnOk, OnErr};
ghost use Rattle.std.specs.List.Sorted.{IsPermutation, IsSorted};
ghost use Rattle.pj_value.specs.Values.{kind_of, value_of};
ghost use Rattle.pj_value.specs.Order.{value_cmp};
ghost use Rattle.pj_value.specs.Aggregates.{has_value};
ghost use Rattle.pj_value.specs.declared.value.AggKind.TheVariants as aggregates;
ghost use Rattle.pj_value.specs.declared.value.Value.{Value};
ghost use Rattle.pj_value.specs.Summaries.{HaveSameValues, IsSummary, Rises, Distinct, state_bytes};
ghost use Rattle.pj_agg.specs.InOrder.{in_order};

use crate::guesses::Guesses;
use crate::item::{Item, Valued};
use crate::pile_bytes::{read_distinct, write_distinct};
use crate::state::StateFault;
use pj_value::{Cell, NoMemory, cell_cmp};
use std::alloc::Global;

/// So many fresh values are let stand in any case.
const FEW: usize = 32;

/// Values of one kind, fresh ones perhaps more than once.
#[derive(Debug, Drop)]
pub(crate) struct Pile<T> {
    items: Vec<T>,
    /// How many of them, from the first on, are known to rise. Only time depends on it.
    sorted: usize,
    /// Where these may stand.
    guesses: Guesses,
    ghost within: { sorted ≤ vec_len items },
}

impl<T: Item> Pile<T> {
    /// No values. Takes no memory.
    pub(crate) fn new(alloc: Global) -> Pile<T>
        ensures { result.items.items ≡ [] }
    {
        Pile {
            items: Vec::new(alloc),
            sorted: 0,
            guesses: Guesses::none(alloc),
        }
    }

    /// These values, which rise.
    pub(crate) fn from_rising(items: Vec<T>) -> Pile<T>
        ensures { result.items.items ≡ items.items }
    {
        let guesses = Guesses::none(*items.allocator());
        Pile {
            sorted: items.len(),
            items,
            guesses,
        }
    }

    /// Puts a value to the others, unless it is known to be there.
    pub(crate) fn add(&mut self, alloc: Global, cell: Cell<'_>) -> Result<(), NoMemory>
        requires { kind_of (value_of cell) ≡ T.kind }
        ensures added { OnOk result (HaveSameValues (map T.value self.new.items.items)
            (map T.value self.old.items.items ++ value_of cell.entry ∷ [])) }
        ensures same { OnErr result
            (HaveSameValues (map T.value self.new.items.items) (map T.value self.old.items.items)) }
    {
        if self.has(cell) {
            return Ok(());
        }
        self.settle_if_due();
        let item = T::from_cell(alloc, cell)?;
        self.items.push(item)?;
        Ok(())
    }

    /// Puts the values of another to these.
    pub(crate) fn join(&mut self, alloc: Global, other: &Pile<T>) -> Result<(), NoMemory>
        ensures joined { OnOk result (HaveSameValues (map T.value self.new.items.items)
            (map T.value self.old.items.items ++ map T.value other.now.items.items)) }
        ensures same { OnErr result
            (HaveSameValues (map T.value self.new.items.items) (map T.value self.old.items.items)) }
    {
        append_copies(&mut self.items, alloc, other.items.as_slice())?;
        self.settle_if_due();
        Ok(())
    }

    /// Whether a value is known to be there.
    fn has(&self, cell: Cell<'_>) -> bool
        ensures { result ≡ true → has_value (value_of cell.entry) (map T.value self.now.items.items) ≡ true }
    {
        if self.is_guessed(cell) {
            return true;
        }
        let sorted = &self.items.as_slice()[..self.sorted];
        is_found(sorted, cell)
    }

    /// Whether a value is where it may stand.
    fn is_guessed(&self, cell: Cell<'_>) -> bool
        ensures { result ≡ true → has_value (value_of cell.entry) (map T.value self.now.items.items) ≡ true }
    {
        match self.guesses.guess(cell) {
            Some(at) => is_at(self.items.as_slice(), at, cell),
            None => false,
        }
    }

    /// Sorts fresh values in where they are as many as the others.
    fn settle_if_due(&mut self)
        ensures { HaveSameValues (map T.value self.new.items.items) (map T.value self.old.items.items) }
    {
        if self.items.len() - self.sorted >= self.sorted.max(FEW) {
            arrange(&mut self.items);
            self.sorted = self.items.len();
            self.guesses.learn(self.items.as_slice());
        }
    }

    /// How many distinct values there are. Takes memory only for fresh ones.
    pub(crate) fn distinct_len(&self, alloc: Global) -> Result<usize, NoMemory>
        ensures { IfOk result (λ n. n ≡ length (in_order (map T.value self.now.items.items))) }
    {
        let items = self.items.as_slice();
        if is_rising(items) {
            return Ok(items.len());
        }
        let cells = distinct_cells(alloc, items)?;
        Ok(cells.len())
    }

    /// Writes the bytes of the distinct values behind others, or nothing.
    pub(crate) fn encode(&self, out: &mut Vec<u8>) -> Result<(), NoMemory>
        ensures bytes { OnOk result (out.new.items
            ≡ out.old.items ++ state_bytes (Distinct (in_order (map T.value self.now.items.items)))) }
        ensures whole { OnOk result (IsSummary aggregates.UniqExact T.kind
            (Distinct (in_order (map T.value self.now.items.items)))) }
        ensures same { OnErr result (out.new.items ≡ out.old.items) }
    {
        write_distinct(out, self.items.as_slice())
    }

    /// The distinct values that have these bytes.
    pub(crate) fn decode(alloc: Global, bytes: &[u8]) -> Result<Pile<T>, StateFault>
        ensures bytes { IfOk result
            (λ p. state_bytes (Distinct (in_order (map T.value p.items.items))) ≡ bytes.now) }
        ensures whole { IfOk result (λ p.
            IsSummary aggregates.UniqExact T.kind (Distinct (in_order (map T.value p.items.items)))) }
        ensures damaged { result ≡ Err StateFault.Damaged → (found : List Value)
            → IsSummary aggregates.UniqExact T.kind (Distinct found)
            → state_bytes (Distinct found) ≡ bytes.now → ⊥ }
    {
        let items = read_distinct(alloc, bytes)?;
        Ok(Pile::from_rising(items))
    }
}

/// Whether a value stands at this index.
fn is_at<T: Valued>(items: &[T], at: usize, cell: Cell<'_>) -> bool
    ensures { result ≡ true → has_value (value_of cell.entry) (map T.value items.now) ≡ true }
{
    at < items.len() && cell_cmp(items[at].as_cell(), cell).is_eq()
}

/// Whether a value is found by halves.
fn is_found<T: Valued>(sorted: &[T], cell: Cell<'_>) -> bool
    ensures { result ≡ true → has_value (value_of cell.entry) (map T.value sorted.now) ≡ true }
{
    sorted
        .binary_search_by(|item| cell_cmp(item.as_cell(), cell))
        .is_ok()
}

/// Puts copies of the values behind the others, all or none.
fn append_copies<T: Item>(items: &mut Vec<T>, alloc: Global, more: &[T]) -> Result<(), NoMemory>
    ensures added { OnOk result
        (map T.value items.new.items ≡ map T.value items.old.items ++ map T.value more.now) }
    ensures same { OnErr result (items.new.items ≡ items.old.items) }
    ensures len { vec_len items.old ≤ vec_len items.new }
{
    let len = items.len();
    let added = push_copies(items, alloc, more);
    if added.is_err() {
        items.truncate(len);
    }
    added
}

/// Puts copies of the values behind the others. After an error some may have been put there.
fn push_copies<T: Item>(items: &mut Vec<T>, alloc: Global, more: &[T]) -> Result<(), NoMemory>
    ensures added { OnOk result
        (map T.value items.new.items ≡ map T.value items.old.items ++ map T.value more.now) }
    ensures kept { take (length items.old.items) items.new.items ≡ items.old.items }
{
    'more: for item in more {
        push_copy(items, alloc, item)?;
    }
    Ok(())
}

/// Puts a copy of a value behind the others.
fn push_copy<T: Item>(items: &mut Vec<T>, alloc: Global, item: &T) -> Result<(), NoMemory>
    ensures added { OnOk result
        (map T.value items.new.items ≡ map T.value items.old.items ++ T.value item.now ∷ []) }
    ensures kept { take (length items.old.items) items.new.items ≡ items.old.items }
{
    let copy = T::from_cell(alloc, item.as_cell())?;
    items.push(copy)?;
    Ok(())
}

/// Sorts the values and leaves each once.
fn arrange<T: Valued>(items: &mut Vec<T>)
    ensures same { HaveSameValues (map T.value items.new.items) (map T.value items.old.items) }
    ensures rises { Rises (map T.value items.new.items) }
{
    sort_values(items);
    items.dedup_by(|a, b| a.compare(b).is_eq());
}

/// Sorts the values. Runs that rise already are merged, where there is memory for it.
fn sort_values<T: Valued>(items: &mut Vec<T>)
    ensures permutation { IsPermutation items.old.items items.new.items }
    ensures sorted { IsSorted (λ x y. value_cmp (T.value x) (T.value y)) items.new.items }
{
    match items.sort_by(|a, b| a.compare(b)) {
        Ok(()) => {}
        Err(_) => items.sort_unstable_by(|a, b| a.compare(b)),
    }
}

/// Whether each value is less than the next.
pub(crate) fn is_rising<T: Valued>(items: &[T]) -> bool
    ensures { result ≡ true → Rises (map T.value items.now) }
{
    'pairs: for at in 1..items.len() {
        if !items[at - 1].compare(&items[at]).is_lt() {
            return false;
        }
    }
    true
}

/// The distinct values in their order, lent.
pub(crate) fn distinct_cells<'a, T: Valued>(
    alloc: Global,
    items: &'a [T],
) -> Result<Vec<Cell<'a>>, NoMemory>
    ensures { IfOk result (λ cells. map value_of cells.items ≡ in_order (map T.value items.now)) }
{
    let mut cells = cells_of(alloc, items)?;
    arrange(&mut cells);
    Ok(cells)
}

/// The values, lent.
fn cells_of<'a, T: Valued>(alloc: Global, items: &'a [T]) -> Result<Vec<Cell<'a>>, NoMemory>
    ensures { IfOk result (λ cells. map value_of cells.items ≡ map T.value items.now) }
{
    let mut cells = Vec::with_capacity(alloc, items.len())?;
    'items: for item in items {
        cells.push(item.as_cell())?;
    }
    Ok(cells)
}
