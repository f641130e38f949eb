//! What is done to all columns of some rows at once.
ghost use Rattle.std.specs.Prelude.{◌≡◌, ◌≢◌, ◌<◌, ℕ, ◌↔◌, IfOk, IsTrue, OnOk, OnErr, length, map, take};
ghost use Rattle.std.specs.List.{All, AllByRecursion};
ghost use Rattle.pj_value.specs.Values.{kind_of, Fits};
ghost use Rattle.pj_value.specs.Columns.{no_values, AreOfKind, kinds_of, values_of};
ghost use Rattle.pj_value.specs.Layout.{gathered, joined, truncated, columns_of_row};

use crate::column::Column;
use crate::memory::{NoMemory, PushFault};
use crate::value::{Kind, Value};
use std::alloc::Global;

/// A column with no values for each kind.
pub(crate) fn empty_columns(alloc: Global, kinds: &[Kind]) -> Result<Vec<Column>, NoMemory>
    ensures { IfOk result (λ cs. cs.items ≡ map no_values kinds.now) }
{
    let columns = kinds
        .iter()
        .map(|kind| Column::new(alloc, *kind))
        .collect(alloc)?;
    Ok(columns)
}

/// The same columns, in memory of their own.
pub(crate) fn duplicate_columns(alloc: Global, columns: &[Column]) -> Result<Vec<Column>, NoMemory>
    ensures { IfOk result (λ cs. cs.items ≡ columns.now) }
{
    let mut copies = Vec::with_capacity(alloc, columns.len())?;
    for column in columns {
        copies.push(column.duplicate(alloc)?)?;
    }
    Ok(copies)
}

/// The values at these indexes of each column, in memory of their own.
pub(crate) fn gather_columns(
    alloc: Global,
    columns: &[Column],
    indexes: &[usize],
) -> Result<Vec<Column>, NoMemory>
    requires { All (λ c. All (λ at. at < length c.values) indexes.now) columns.now }
    ensures { IfOk result (λ cs. cs.items ≡ map (gathered indexes.now) columns.now) }
{
    let mut found = Vec::with_capacity(alloc, columns.len())?;
    for column in columns {
        found.push(column.gather(alloc, indexes)?)?;
    }
    Ok(found)
}

/// The kind of each column.
pub(crate) fn column_kinds(alloc: Global, columns: &[Column]) -> Result<Vec<Kind>, NoMemory>
    ensures kinds { IfOk result (λ ks. ks.items ≡ kinds_of columns.now) }
    ensures of_kind { OnOk result (All (λ c. AreOfKind c.kind c.values) columns.now) }
{
    let mut kinds = Vec::with_capacity(alloc, columns.len())?;
    for column in columns {
        kinds.push(column.kind())?;
    }
    Ok(kinds)
}

/// Has no effect. A caller learns that the values of each column fit.
pub(crate) fn columns_fit(columns: &[Column])
    ensures { All (λ c. AllByRecursion Fits c.values) columns.now }
{
    for column in columns {
        let _kind = column.kind();
    }
}

/// Whether the row has one value of each kind.
pub(crate) fn fits(row: &[Value], kinds: &[Kind]) -> bool
    ensures { IsTrue result ↔ (map kind_of row.now ≡ kinds.now) }
{
    if row.len() != kinds.len() {
        return false;
    }
    for (value, kind) in row.iter().zip(kinds) {
        if value.kind() != *kind {
            return false;
        }
    }
    true
}

/// Adds each value of the row to its column. After an error some columns may have theirs.
pub(crate) fn push_row(
    columns: &mut Vec<Column>,
    row: &[Value],
    alloc: Global,
) -> Result<(), PushFault>
    requires { map kind_of row.now ≡ kinds_of columns.old.items }
    ensures added { OnOk result (columns.new.items ≡ joined columns.old.items (columns_of_row row.now)) }
    ensures part { (i : ℕ)
        × (columns.new.items ≡ joined columns.old.items (take i (columns_of_row row.now))) }
    ensures shape { result ≢ Err PushFault.WrongShape }
{
    for (at, value) in row.iter().enumerate() {
        columns[at].push(value.duplicate(alloc)?)?;
    }
    Ok(())
}

/// Adds the values of each column to the column at its index. After an error some columns may have theirs.
pub(crate) fn append_columns(
    columns: &mut Vec<Column>,
    more: &[Column],
    alloc: Global,
) -> Result<(), NoMemory>
    requires { kinds_of more.now ≡ kinds_of columns.old.items }
    ensures added { OnOk result (columns.new.items ≡ joined columns.old.items (values_of more.now)) }
    ensures part { (i : ℕ) × (columns.new.items ≡ joined columns.old.items (take i (values_of more.now))) }
{
    for (at, added) in more.iter().enumerate() {
        columns[at].append(added, alloc)?;
    }
    Ok(())
}

/// Drops the values of each column from this index on.
pub(crate) fn truncate_columns(columns: &mut Vec<Column>, len: usize)
    ensures { columns.new.items ≡ map (truncated len) columns.old.items }
{
    for column in columns.iter_mut() {
        column.truncate(len);
    }
}
