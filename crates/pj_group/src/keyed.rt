//! The keys of groups: equal where their values are, and hashed by these.
ghost use Rattle.std.specs.Prelude.{◌≡◌, ◌<◌, IfOk, fold, length, slice_index_or};
ghost use Rattle.pj_value.specs.declared.value.Value.TheVariants as values;
ghost use Rattle.pj_value.specs.Values.{value_of};
ghost use Rattle.pj_answer.specs.Answers.{Row, same_row};
ghost use Rattle.pj_group.specs.Keyed.{cell_writes, row_writes, key_at};

use crate::dense::{Dense, cell_at};
use indexmap::Equivalent;
use pj_value::{Cell, List, NoMemory, Value, cell_cmp};
use std::alloc::Global;
use std::hash::{Hash, Hasher};
use std::marker::Model;

/// The key of a group: its values of GROUP BY.
#[derive(Debug, Drop)]
pub(crate) struct Key {
    values: List<Value>,
}

impl Model for Key {
    ghost use Rattle.pj_answer.specs.Answers.{Row};

    ghost Value = { Row };

    ghost view = { λ k. k.values };
}

/// The key of a row, where it lies in the columns of the GROUP BY values.
#[derive(Drop)]
pub(crate) struct KeyAt<'a, 'b> {
    columns: &'a [Dense<'b>],
    at: usize,
}

impl<'a, 'b> Model for KeyAt<'a, 'b> {
    ghost use Rattle.pj_answer.specs.Answers.{Row};
    ghost use Rattle.pj_group.specs.Keyed.{key_at};

    ghost Value = { Row };

    ghost view = { λ k. key_at k.columns.now k.at };
}

impl<'a, 'b> KeyAt<'a, 'b> {
    /// The key of the row at an index of these columns.
    pub(crate) fn new(columns: &'a [Dense<'b>], at: usize) -> KeyAt<'a, 'b>
        ensures { result ≡ key_at columns.now at }
    {
        KeyAt { columns, at }
    }

    /// The same key, which owns its values.
    pub(crate) fn to_key(&self, alloc: Global) -> Result<Key, NoMemory>
        ensures { IfOk result (λ k. k ≡ self.now) }
    {
        let mut values = Vec::with_capacity(alloc, self.columns.len())?;
        for column in self.columns {
            values.push(cell_at(column, self.at).to_value(alloc)?)?;
        }
        Ok(Key {
            values: List::from_vec(values),
        })
    }
}

/// The values of a key, one by one, wherever they lie.
trait Cells {
    ghost key: { Self → Row };

    /// How many there are.
    fn len(&self) -> usize
        ensures { result ≡ length (key self.now) };

    /// The value at an index, lent.
    fn cell(&self, at: usize) -> Cell<'_>
        requires { at < length (key self.now) }
        ensures { value_of result ≡ slice_index_or (key self.now) at (values.Num 0) };
}

impl Cells for Key {
    ghost key = { λ k. k };

    fn len(&self) -> usize {
        self.values.as_slice().len()
    }

    fn cell(&self, at: usize) -> Cell<'_> {
        self.values.as_slice()[at].as_cell()
    }
}

impl<'a, 'b> Cells for KeyAt<'a, 'b> {
    ghost key = { λ k. k };

    fn len(&self) -> usize {
        self.columns.len()
    }

    fn cell(&self, at: usize) -> Cell<'_> {
        match self.columns.get(at) {
            Some(column) => cell_at(column, self.at),
            None => unreachable!(),
        }
    }
}

/// Whether two keys have the same values: it stops at the first that differs.
fn are_same<A: Cells, B: Cells>(a: &A, b: &B) -> bool
    ensures { result ≡ same_row (A.key a.now) (B.key b.now) }
{
    let len = a.len();
    if b.len() != len {
        return false;
    }
    for at in 0..len {
        if cell_cmp(a.cell(at), b.cell(at)).is_ne() {
            return false;
        }
    }
    true
}

/// Feeds the values of a key to a hasher.
fn hash_key<K: Cells, H: Hasher>(key: &K, state: &mut H)
    ensures { state.new ≡ fold H.write state.old (row_writes (K.key key.now)) }
{
    for at in 0..key.len() {
        hash_cell(key.cell(at), state);
    }
}

/// Feeds a value to a hasher.
fn hash_cell<H: Hasher>(cell: Cell<'_>, state: &mut H)
    ensures { state.new ≡ fold H.write state.old (cell_writes (value_of cell.entry)) }
{
    match cell {
        Cell::Num(number) => state.write_u64(number),
        Cell::Text(text) => state.write(text.as_slice()),
    }
}

impl PartialEq for Key {
    ghost use Rattle.pj_group.specs.Keyed.{same_row_alike};
    ghost use Rattle.pj_answer.specs.Answers.{same_row};

    ghost eq = { same_row };

    ghost laws = { same_row_alike };

    fn eq(&self, other: &Key) -> bool {
        are_same(self, other)
    }
}

impl Eq for Key {
    ghost use Rattle.pj_group.specs.Keyed.{same_row_equivalence};

    ghost laws = { same_row_equivalence };
}

impl Hash for Key {
    ghost use Rattle.pj_group.specs.Keyed.{row_writes, same_row_writes};

    ghost hash_input = { row_writes };

    ghost respects_eq = { same_row_writes };

    fn hash<H: Hasher>(&self, state: &mut H) {
        hash_key(self, state);
    }
}

impl<'a, 'b> PartialEq for KeyAt<'a, 'b> {
    ghost use Rattle.pj_group.specs.Keyed.{same_row_alike};
    ghost use Rattle.pj_answer.specs.Answers.{same_row};

    ghost eq = { same_row };

    ghost laws = { same_row_alike };

    fn eq(&self, other: &KeyAt<'a, 'b>) -> bool {
        are_same(self, other)
    }
}

impl<'a, 'b> Eq for KeyAt<'a, 'b> {
    ghost use Rattle.pj_group.specs.Keyed.{same_row_equivalence};

    ghost laws = { same_row_equivalence };
}

impl<'a, 'b> Hash for KeyAt<'a, 'b> {
    ghost use Rattle.pj_group.specs.Keyed.{row_writes, same_row_writes};

    ghost hash_input = { row_writes };

    ghost respects_eq = { same_row_writes };

    fn hash<H: Hasher>(&self, state: &mut H) {
        hash_key(self, state);
    }
}

impl<'a, 'b, 'c> Equivalent<Key> for &'c KeyAt<'a, 'b> {
    ghost use Rattle.pj_answer.specs.Answers.{same_row};
    ghost use Rattle.pj_group.specs.Keyed.{same_row_writes, same_row_equivalence};

    ghost equivalent = { λ q k. same_row q.now k };

    ghost respects_hash = { λ q k. same_row_writes q.now k };

    ghost respects_eq = { λ q x y. same_row_equivalence.congr q.now x y };

    fn equivalent(&self, key: &Key) -> bool {
        are_same(*self, key)
    }
}
