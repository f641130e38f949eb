//! Distinct values as bytes: their number, and each in their order.
ghost use Rattle.std.specs.Prelude.{◌≡◌, List, [], ◌∷◌, ◌++◌, false, true, flat_map, length, map, take};
ghost use Rattle.std.specs.Prelude.{IfOk, OnOk, OnErr};
ghost use Rattle.std.specs.List.{AllByRecursion};
ghost use Rattle.pj_value.specs.declared.value.AggKind.TheVariants as aggregates;
ghost use Rattle.pj_value.specs.declared.value.Value.{Value};
ghost use Rattle.pj_value.specs.Values.{Fits};
ghost use Rattle.pj_value.specs.Summaries.{Rises, IsOfKind, IsSummary, Distinct, value_bytes, state_bytes};
ghost use Rattle.pj_agg.specs.InOrder.{in_order};

use crate::bytes::{number_at_front, write_number, write_value};
use crate::item::{Item, Valued};
use crate::pile::{distinct_cells, is_rising};
use crate::state::StateFault;
use pj_value::NoMemory;
use std::alloc::Global;

/// Writes the distinct ones of values behind other bytes, or nothing. Values that rise are written where they
/// lie.
pub(crate) fn write_distinct<T: Item>(out: &mut Vec<u8>, items: &[T]) -> Result<(), NoMemory>
    ensures bytes { OnOk result (out.new.items
        ≡ out.old.items ++ state_bytes (Distinct (in_order (map T.value items.now)))) }
    ensures whole { OnOk result
        (IsSummary aggregates.UniqExact T.kind (Distinct (in_order (map T.value items.now)))) }
    ensures same { OnErr result (out.new.items ≡ out.old.items) }
{
    if is_rising(items) {
        return write_all(out, items);
    }
    let cells = distinct_cells(*out.allocator(), items)?;
    write_all(out, cells.as_slice())
}

/// Writes how many values there are, and each of them, or nothing.
fn write_all<T: Valued>(out: &mut Vec<u8>, items: &[T]) -> Result<(), NoMemory>
    ensures bytes { OnOk result
        (out.new.items ≡ out.old.items ++ state_bytes (Distinct (map T.value items.now))) }
    ensures fits { OnOk result (AllByRecursion Fits (map T.value items.now)) }
    ensures same { OnErr result (out.new.items ≡ out.old.items) }
{
    let len = out.len();
    let written = write_number_and_each(out, items);
    if written.is_err() {
        out.truncate(len);
    }
    written
}

/// Writes how many values there are, and each of them. A call that fails may have written a part of it.
fn write_number_and_each<T: Valued>(out: &mut Vec<u8>, items: &[T]) -> Result<(), NoMemory>
    ensures bytes { OnOk result
        (out.new.items ≡ out.old.items ++ state_bytes (Distinct (map T.value items.now))) }
    ensures fits { OnOk result (AllByRecursion Fits (map T.value items.now)) }
    ensures kept { take (length out.old.items) out.new.items ≡ out.old.items }
{
    write_number(out, items.len() as u64)?;
    write_each(out, items)
}

/// Writes each of the values. A call that fails may have written a part of them.
fn write_each<T: Valued>(out: &mut Vec<u8>, items: &[T]) -> Result<(), NoMemory>
    ensures bytes { OnOk result
        (out.new.items ≡ out.old.items ++ flat_map value_bytes (map T.value items.now)) }
    ensures fits { OnOk result (AllByRecursion Fits (map T.value items.now)) }
    ensures kept { take (length out.old.items) out.new.items ≡ out.old.items }
{
    'items: for item in items {
        write_value(out, item.as_cell())?;
    }
    Ok(())
}

/// The values whose bytes these are, which rise.
pub(crate) fn read_distinct<T: Item>(alloc: Global, bytes: &[u8]) -> Result<Vec<T>, StateFault>
    ensures bytes { IfOk result
        (λ items. state_bytes (Distinct (map T.value items.items)) ≡ bytes.now) }
    ensures whole { IfOk result
        (λ items. IsSummary aggregates.UniqExact T.kind (Distinct (map T.value items.items))) }
    ensures damaged { result ≡ Err StateFault.Damaged → (found : List Value)
        → IsSummary aggregates.UniqExact T.kind (Distinct found) → state_bytes (Distinct found) ≡ bytes.now
        → ⊥ }
{
    let count = match number_at_front(bytes) {
        Some(count) => count,
        None => return Err(StateFault::Damaged),
    };
    let items = read_each(alloc, &bytes[8..])?;
    if items.len() as u64 != count {
        return Err(StateFault::Damaged);
    }
    Ok(items)
}

/// The values whose bytes stand one after the other, which rise.
fn read_each<T: Item>(alloc: Global, bytes: &[u8]) -> Result<Vec<T>, StateFault>
    ensures bytes { IfOk result
        (λ items. flat_map value_bytes (map T.value items.items) ≡ bytes.now) }
    ensures whole { IfOk result
        (λ items. IsSummary aggregates.UniqExact T.kind (Distinct (map T.value items.items))) }
    ensures damaged { result ≡ Err StateFault.Damaged → (found : List Value)
        → IsSummary aggregates.UniqExact T.kind (Distinct found) → flat_map value_bytes found ≡ bytes.now
        → ⊥ }
{
    let mut items = Vec::new(alloc);
    let mut rest = bytes;
    'rest: while !rest.is_empty() {
        let len = match T::len_at_front(rest) {
            Some(len) => len,
            None => return Err(StateFault::Damaged),
        };
        push_read(&mut items, alloc, &rest[..len])?;
        rest = &rest[len..];
    }
    Ok(items)
}

/// Puts the value of these bytes behind the others, where it is greater than the last of them.
fn push_read<T: Item>(items: &mut Vec<T>, alloc: Global, bytes: &[u8]) -> Result<(), StateFault>
    requires { (v : Value) × IsOfKind T.kind v × (value_bytes v ≡ bytes.now) }
    ensures pushed { OnOk result ((v : Value) × IsOfKind T.kind v × (value_bytes v ≡ bytes.now)
        × (map T.value items.new.items ≡ map T.value items.old.items ++ v ∷ [])) }
    ensures rises { OnOk result
        (Rises (map T.value items.old.items) → Rises (map T.value items.new.items)) }
    ensures damaged { result ≡ Err StateFault.Damaged → (v : Value) → IsOfKind T.kind v
        → value_bytes v ≡ bytes.now → Rises (map T.value items.old.items ++ v ∷ []) → ⊥ }
{
    let item = T::from_bytes(alloc, bytes)?;
    if !is_above(items.as_slice(), &item) {
        return Err(StateFault::Damaged);
    }
    items.push(item)?;
    Ok(())
}

/// Whether a value is greater than the last of some.
fn is_above<T: Valued>(items: &[T], item: &T) -> bool
    ensures above { result ≡ true → Rises (map T.value items.now)
        → Rises (map T.value items.now ++ T.value item.now ∷ []) }
    ensures not_above { result ≡ false → Rises (map T.value items.now ++ T.value item.now ∷ []) → ⊥ }
{
    match items.last() {
        Some(last) => last.compare(item).is_lt(),
        None => true,
    }
}
