//! Which group each row is of: groups are numbered from 0 in the order of their first rows.
ghost use Rattle.std.specs.Prelude.{◌≡◌, false, ◌∷◌, [], ◌++◌, replicate, OnOk, IfOk};
ghost use Rattle.std.specs.List.{position_or_len, range_with_len};
ghost use Rattle.pj_answer.specs.Answers.{same_row, has_row};
ghost use Rattle.pj_group.specs.Numbers.{with_key, keys_of_rows, AreNumbers};

use crate::dense::Dense;
use crate::indexes::all_indexes;
use crate::keyed::{Key, KeyAt};
use indexmap::IndexSet;
use pj_value::NoMemory;
use std::alloc::Global;

/// The groups of rows, and which rows began one.
#[derive(Drop)]
pub(crate) struct Numbers {
    /// For each row the number of its group.
    pub(crate) groups: Vec<usize>,
    /// The places of the rows that were the first of their groups, in the order of these.
    pub(crate) openings: Vec<usize>,
}

/// The groups of so many rows by the values in these columns. A key that isn't there yet is added
/// behind the others; only then are its values copied.
pub(crate) fn numbered(
    alloc: Global,
    keys: &mut IndexSet<Key>,
    columns: &[Dense<'_>],
    len: usize,
) -> Result<Numbers, NoMemory>
    ensures { IfOk result
        (λ n. AreNumbers keys.old.keys (keys_of_rows columns.now len) keys.new.keys n) }
{
    let mut groups = Vec::with_capacity(alloc, len)?;
    let mut openings = Vec::new(alloc);
    let known = keys.len();
    for at in 0..len {
        let number = number_of(alloc, keys, &KeyAt::new(columns, at))?;
        if number == known + openings.len() {
            openings.push(at)?;
        }
        groups.push(number)?;
    }
    Ok(Numbers { groups, openings })
}

/// The number of the group of a key, which is added where it isn't there.
fn number_of(
    alloc: Global,
    keys: &mut IndexSet<Key>,
    key: &KeyAt<'_, '_>,
) -> Result<usize, NoMemory>
    ensures keys { OnOk result (keys.new.keys ≡ with_key keys.old.keys key.now) }
    ensures number { IfOk result (λ n. n ≡ position_or_len (same_row key.now) keys.old.keys) }
{
    match keys.get_index_of(key) {
        Some(number) => Ok(number),
        None => add_key(keys, key.to_key(alloc)?),
    }
}

/// The number of a key that isn't there yet, and is added.
fn add_key(keys: &mut IndexSet<Key>, key: Key) -> Result<usize, NoMemory>
    requires { has_row key keys.old.keys ≡ false }
    ensures keys { OnOk result (keys.new.keys ≡ keys.old.keys ++ key ∷ []) }
    ensures number { IfOk result (λ n. n ≡ position_or_len (same_row key) keys.old.keys) }
{
    let (number, _) = keys.insert_full(key)?;
    Ok(number)
}

/// The groups of so many rows, each by itself: which group each row is of isn't said.
pub(crate) fn of_each(alloc: Global, len: usize) -> Result<Numbers, NoMemory>
    ensures groups { IfOk result (λ n. n.groups.items ≡ []) }
    ensures openings { IfOk result (λ n. n.openings.items ≡ range_with_len 0 len) }
{
    let openings = all_indexes(alloc, len)?;
    Ok(Numbers {
        groups: Vec::new(alloc),
        openings,
    })
}

/// The groups of so many rows, all in the first, which is there already.
pub(crate) fn of_one(alloc: Global, len: usize) -> Result<Numbers, NoMemory>
    ensures groups { IfOk result (λ n. n.groups.items ≡ replicate len 0) }
    ensures openings { IfOk result (λ n. n.openings.items ≡ []) }
{
    Ok(Numbers {
        groups: vec![in alloc; 0; len]?,
        openings: Vec::new(alloc),
    })
}
