//! The indexes of the rows that a query keeps, in the order that ORDER BY asks for.
ghost use Rattle.std.specs.Prelude.{◌≡◌, ◌<◌, IfOk, IsTrue, length, map};
ghost use Rattle.std.specs.List.{filter, range_with_len, All};
ghost use Rattle.pj_value.specs.Rows.{rows_at};
ghost use Rattle.pj_expr.specs.declared.cond.Cond.TheVariants as conds;
ghost use Rattle.pj_expr.specs.Eval.{holds};
ghost use Rattle.pj_expr.specs.Fits.{FitsCond};
ghost use Rattle.pj_group.specs.Least.{AreFirst};
ghost use Rattle.pj_group.specs.Indexes.{FitsRow, key_for, key_values, is_before};

use crate::keys::{Key, keys_of};
use crate::least::{cut_to, first_sorted, least_indexes};
use pj_block::kept;
use pj_expr::{Cond, OrderKey};
use pj_value::{NoMemory, Rows};
use std::alloc::Global;

/// The indexes of the rows that satisfy a filter, in their order. Where all rows satisfy it, none is tested.
pub(crate) fn indexes_kept(alloc: Global, cond: &Cond, rows: &Rows) -> Result<Vec<usize>, NoMemory>
    requires { FitsCond rows.now.kinds cond.now }
    ensures within { IfOk result (λ ps. All (λ at. at < length rows.now.rows) ps.items) }
    ensures rows { IfOk result (λ p. rows_at rows.now.rows p.items ≡ filter (holds cond.now) rows.now.rows) }
    ensures all { IfOk result
        (λ ps. cond.now ≡ conds.All → ps.items ≡ range_with_len 0 (length rows.now.rows)) }
{
    match cond {
        Cond::All => {
            let indexes = all_indexes(alloc, rows.len())?;
            Ok(indexes)
        }
        _ => kept(alloc, cond, rows),
    }
}

/// Whether a filter keeps all rows, whatever they are.
pub(crate) fn keeps_all(filter: &Cond) -> bool
    ensures { IsTrue result → filter.now ≡ conds.All }
{
    match filter {
        Cond::All => true,
        _ => false,
    }
}

/// The indexes of this many rows.
pub(crate) fn all_indexes(alloc: Global, len: usize) -> Result<Vec<usize>, NoMemory>
    ensures { IfOk result (λ ps. ps.items ≡ range_with_len 0 len) }
{
    let mut indexes = Vec::with_capacity(alloc, len)?;
    for at in 0..len {
        indexes.push(at)?;
    }
    Ok(indexes)
}

/// The first of these indexes of rows in the order of ORDER BY, as many as LIMIT says.
pub(crate) fn first_indexes(
    alloc: Global,
    keys: &[OrderKey],
    rows: &Rows,
    indexes: Vec<usize>,
    limit: Option<u64>,
) -> Result<Vec<usize>, NoMemory>
    requires { All (λ key. FitsRow rows.now.kinds key.item) keys.now }
    ensures { IfOk result
        (λ ps. AreFirst (is_before (map (key_for rows.now) keys.now)) limit indexes.items ps.items) }
{
    if keys.is_empty() {
        Ok(cut_to(indexes, limit))
    } else {
        let keys = keys_of(alloc, keys, rows)?;
        first_by(alloc, indexes, keys.as_slice(), limit)
    }
}

/// The first of these indexes in the order of keys. They are sorted whole only where LIMIT leaves none out.
pub(crate) fn first_by(
    alloc: Global,
    indexes: Vec<usize>,
    keys: &[Key<'_>],
    limit: Option<u64>,
) -> Result<Vec<usize>, NoMemory>
    ensures { IfOk result
        (λ ps. AreFirst (is_before (map key_values keys.now)) limit indexes.items ps.items) }
{
    match limit {
        Some(0) => Ok(Vec::new(alloc)),
        Some(most) if most < indexes.len() as u64 => least_indexes(
            alloc,
            indexes.as_slice(),
            keys,
            most,
        ),
        _ => first_sorted(indexes, keys, limit),
    }
}
