//! The first indexes in the order of keys. A few of many are found without a sort of all.
ghost use Rattle.std.specs.Prelude.{◌≡◌, ◌-◌, ◌≤◌, false, List, [], ◌∷◌, ◌++◌, Some};
ghost use Rattle.std.specs.Prelude.{ℕ, IfOk, IfSome, length, map};
ghost use Rattle.std.specs.Bool.{IsTrue};
ghost use Rattle.std.specs.Option.{IsSomeAnd};
ghost use Rattle.std.specs.List.{slice_get};
ghost use Rattle.pj_answer.specs.Rows.{first_of};
ghost use Rattle.pj_group.specs.Least.{AreFirst, IsBehind, KeepsFirst};
ghost use Rattle.pj_group.specs.Indexes.{key_values, is_before};

use crate::keys::{Key, compare};
use pj_value::NoMemory;
use std::alloc::Global;
use std::cmp::Ordering;

/// Of the indexes seen so far, those that can still be among the first.
#[derive(Drop)]
struct Best {
    indexes: Vec<usize>,
    /// The last of the first indexes when they were cut: what doesn't come before it is not among the first.
    worst: Option<usize>,
}

/// The first of these indexes in the order of keys, as many as asked for. Most indexes are compared with one
/// other alone, and the rest are sorted a few at a time.
pub(crate) fn least_indexes(
    alloc: Global,
    indexes: &[usize],
    keys: &[Key<'_>],
    most: u64,
) -> Result<Vec<usize>, NoMemory>
    ensures { IfOk result
        (λ ps. AreFirst (is_before (map key_values keys.now)) (Some most) indexes.now ps.items) }
{
    let mut best = Best {
        indexes: Vec::new(alloc),
        worst: None,
    };
    for at in indexes {
        if is_behind(best.worst, *at, keys) {
            continue;
        }
        best = best_with(best, *at, keys, most)?;
    }
    let first = first_sorted(best.indexes, keys, Some(most))?;
    Ok(first)
}

/// Whether an index doesn't come before the worst. Where no worst is known, it may be among the first.
fn is_behind(worst: Option<usize>, at: usize, keys: &[Key<'_>]) -> bool
    ensures { IsTrue result → IsSomeAnd worst (λ w. is_before (map key_values keys.now) at w ≡ false) }
{
    match worst {
        None => false,
        Some(worst) => compare(keys, at, worst) != Ordering::Less,
    }
}

/// The best with one more index. They are cut to the first ones once they are many.
fn best_with(mut best: Best, at: usize, keys: &[Key<'_>], most: u64) -> Result<Best, NoMemory>
    ensures { (seen : List ℕ)
        → KeepsFirst (is_before (map key_values keys.now)) most seen best.indexes.items best.worst
        → IfOk result
        (λ b.
        KeepsFirst (is_before (map key_values keys.now)) most (seen ++ at ∷ []) b.indexes.items b.worst) }
{
    best.indexes.push(at)?;
    if (best.indexes.len() as u64) < room(most) {
        Ok(best)
    } else {
        let first = cut(best.indexes, keys, most)?;
        Ok(first)
    }
}

/// How many indexes, or rows, are held before they are cut. Only time and memory depend on it.
pub(crate) fn room(most: u64) -> u64 {
    most.saturating_mul(2).max(64)
}

/// The first of these indexes, as many as asked for.
fn cut(indexes: Vec<usize>, keys: &[Key<'_>], most: u64) -> Result<Best, NoMemory>
    ensures first { IfOk result
        (λ b. AreFirst (is_before (map key_values keys.now)) (Some most) indexes.items b.indexes.items) }
    ensures worst { IfOk result
        (λ b. IfSome b.worst (IsBehind (is_before (map key_values keys.now)) most b.indexes.items)) }
{
    let indexes = first_sorted(indexes, keys, Some(most))?;
    let worst = last_of(indexes.as_slice(), most);
    Ok(Best { indexes, worst })
}

/// The last of the indexes, where they are as many as asked for.
fn last_of(indexes: &[usize], most: u64) -> Option<usize>
    ensures last { IfSome result (λ at. slice_get indexes.now (length indexes.now - 1) ≡ Some at) }
    ensures enough { IfSome result (λ at. most ≤ length indexes.now) }
{
    if (indexes.len() as u64) < most {
        None
    } else {
        indexes.last().copied()
    }
}

/// These indexes, sorted by keys and cut to as many as LIMIT says.
pub(crate) fn first_sorted(
    mut indexes: Vec<usize>,
    keys: &[Key<'_>],
    limit: Option<u64>,
) -> Result<Vec<usize>, NoMemory>
    ensures { IfOk result
        (λ ps. AreFirst (is_before (map key_values keys.now)) limit indexes.items ps.items) }
{
    indexes.sort_by(|a, b| compare(keys, *a, *b))?;
    Ok(cut_to(indexes, limit))
}

/// The first indexes, as many as LIMIT says.
pub(crate) fn cut_to(mut indexes: Vec<usize>, limit: Option<u64>) -> Vec<usize>
    ensures { result.items ≡ first_of limit indexes.items }
{
    match limit {
        None => indexes,
        Some(most) => {
            indexes.truncate(most as usize);
            indexes
        }
    }
}
