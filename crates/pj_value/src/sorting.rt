//! The order of rows by some of their columns.
ghost use Rattle.std.specs.Prelude.{◌≡◌, ℕ, OnOk, OnErr, IfOk};
ghost use Rattle.std.specs.List.Sorted.{IsPermutation, IsSortedBy, IsStableBy};
ghost use Rattle.pj_value.specs.Layout.{indexes_of, indexes_cmp, is_before};

use crate::column::Column;
use crate::memory::NoMemory;
use crate::value::cell_cmp;
use std::alloc::Global;
use std::cmp::Ordering;

/// How the rows at two indexes stand to each other in these columns.
fn rows_cmp(columns: &[Column], keys: &[usize], a: usize, b: usize) -> Ordering
    ensures { result ≡ indexes_cmp columns.now keys.now a b }
{
    'keys: for key in keys {
        // Where there is no such column, no row differs in it.
        let Some(column) = columns.get(*key) else {
            continue 'keys;
        };
        match cell_cmp(column.cell_or_zero(a), column.cell_or_zero(b)) {
            Ordering::Equal => {}
            other => return other,
        }
    }
    Ordering::Equal
}

/// The numbers below this one, as they rise.
fn first_indexes(alloc: Global, len: usize) -> Result<Vec<usize>, NoMemory>
    ensures { IfOk result (λ p. p.items ≡ indexes_of len) }
{
    let mut indexes = Vec::with_capacity(alloc, len)?;
    for at in 0..len {
        indexes.push(at)?;
    }
    Ok(indexes)
}

/// The indexes of the rows, in the order of the rows.
pub(crate) fn sorted_indexes(
    alloc: Global,
    columns: &[Column],
    keys: &[usize],
    len: usize,
) -> Result<Vec<usize>, NoMemory>
    ensures each_once { IfOk result (λ p. IsPermutation (indexes_of len) p.items) }
    ensures sorted { IfOk result (λ p. IsSortedBy (is_before columns.now keys.now) p.items) }
    ensures stable { IfOk result (λ p. IsStableBy (is_before columns.now keys.now) (indexes_of len) p.items) }
{
    let mut indexes = first_indexes(alloc, len)?;
    indexes.sort_by(|a, b| rows_cmp(columns, keys, *a, *b))?;
    Ok(indexes)
}
