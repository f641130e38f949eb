//! The rows of an INSERT. All their values lie in one vector, so that a row takes no memory of its own.
ghost use Rattle.std.specs.Prelude.{◌≡◌, ◌<◌, ◌++◌, ◌∷◌, [], length, OnOk, slice_index_or};
ghost use Rattle.pj_grammar.specs.RowLayout.{rows_from, begin_at, AreEnds};

use pj_value::{NoMemory, Value};
use std::alloc::Global;
use std::marker::Model;

/// Rows of values, which contracts see as the list of the rows, each a list of values.
#[derive(Debug, Drop)]
pub struct ValueRows {
    /// The values of all rows, one row behind the other.
    values: Vec<Value>,
    /// Where each row ends in the values. The next one begins there.
    ends: Vec<usize>,
}

impl Model for ValueRows {
    ghost use Rattle.std.specs.Prelude.{List, length};
    ghost use Rattle.pj_value.specs.declared.value.Value.{Value as OneValue};
    ghost use Rattle.pj_grammar.specs.RowLayout.{rows_from, AreEnds};

    ghost Value = { List (List OneValue) };

    ghost view = { λ r. rows_from r.values.items 0 r.ends.items };

    ghost invariant = { λ r. AreEnds 0 r.ends.items (length r.values.items) };
}

impl ValueRows {
    /// No rows. Takes no memory.
    pub fn new(alloc: Global) -> ValueRows
        ensures { result ≡ [] }
    {
        ValueRows {
            values: Vec::new(alloc),
            ends: Vec::new(alloc),
        }
    }

    /// How many rows there are.
    pub fn len(&self) -> usize
        ensures { result ≡ length self.now }
    {
        self.ends.as_slice().len()
    }

    /// The values of the row at this index, lent. Takes constant time.
    pub fn row(&self, at: usize) -> &[Value]
        requires { at < length self.now }
        ensures { result.now ≡ slice_index_or self.now at [] }
    {
        row_of(self.values.as_slice(), self.ends.as_slice(), at)
    }
}

/// Where the row at this index begins.
fn begin_of(ends: &[usize], at: usize) -> usize
    requires { at < length ends.now }
    ensures { result ≡ begin_at 0 ends.now at }
{
    if at == 0 { 0 } else { ends[at - 1] }
}

/// The row at this index, of values that lie row behind row.
fn row_of<'a>(values: &'a [Value], ends: &[usize], at: usize) -> &'a [Value]
    requires ends { AreEnds 0 ends.now (length values.now) }
    requires at { at < length ends.now }
    ensures { result.now ≡ slice_index_or (rows_from values.now 0 ends.now) at [] }
{
    let begin = begin_of(ends, at);
    let (_, behind) = values.split_at(begin);
    behind.split_at(ends[at] - begin).0
}

/// Rows that are still read: whole ones, and behind them the values of one that has begun.
#[derive(Debug, Drop)]
pub struct RowsSoFar {
    values: Vec<Value>,
    ends: Vec<usize>,
}

impl Model for RowsSoFar {
    ghost use Rattle.std.specs.Prelude.{length, drop};
    ghost use Rattle.pj_grammar.specs.RowLayout.{WithBegun, rows_from, last_end, AreEnds};

    ghost Value = { WithBegun };

    ghost view = { λ r. record {
      whole = rows_from r.values.items 0 r.ends.items;
      begun = drop (last_end 0 r.ends.items) r.values.items;
    } };

    ghost invariant = { λ r. AreEnds 0 r.ends.items (length r.values.items) };
}

impl RowsSoFar {
    /// No rows. Takes no memory.
    pub fn new(alloc: Global) -> RowsSoFar
        ensures { result ≡ record { whole = []; begun = [] } }
    {
        RowsSoFar {
            values: Vec::new(alloc),
            ends: Vec::new(alloc),
        }
    }

    /// Adds a value behind those of the row that has begun, in amortised constant time.
    #[inline(always)]
    pub fn push(&mut self, value: Value) -> Result<(), NoMemory>
        ensures { OnOk result (self.new ≡ record self.old { begun = self.old.begun ++ value ∷ [] }) }
    {
        self.values.push(value)?;
        Ok(())
    }

    /// Ends the row that has begun. The next value begins another.
    #[inline(always)]
    pub fn end_row(&mut self) -> Result<(), NoMemory>
        ensures { OnOk result
            (self.new ≡ record { whole = self.old.whole ++ self.old.begun ∷ []; begun = [] }) }
    {
        self.ends.push(self.values.as_slice().len())?;
        Ok(())
    }

    /// The whole rows. Takes no memory.
    pub fn finish(self) -> ValueRows
        ensures { result ≡ self.whole }
    {
        let RowsSoFar { values, ends } = self;
        ValueRows { values, ends }
    }
}
