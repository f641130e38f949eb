//! Rows of values, kept by columns: a row takes no memory of its own,
//! and what needs one column alone reads no other.
ghost use Rattle.std.specs.Prelude.{◌≡◌, ◌<◌, ◌++◌, ◌∷◌, [], ◌↔◌, length, map, take};
ghost use Rattle.std.specs.Prelude.{IfOk, OnOk, OnErr, IsTrue};
ghost use Rattle.std.specs.List.{All, AllByRecursion};
ghost use Rattle.pj_value.specs.Values.{kind_of, value_of, Fits};
ghost use Rattle.pj_value.specs.Rows.{no_rows, rows_of_no_columns, value_at, rows_at, column_of, rows_in};
ghost use Rattle.pj_value.specs.Rows.{rows_joined, HaveKinds};
ghost use Rattle.pj_value.specs.Order.{IsSortedBy};

use crate::column::Column;
use crate::columns::{
    append_columns, column_kinds, columns_fit, duplicate_columns, empty_columns, fits,
    gather_columns, push_row, truncate_columns,
};
use crate::memory::{NoMemory, PushFault};
use crate::sorting::sorted_indexes;
use crate::value::{Cell, Kind, Value};
use std::alloc::Global;
use std::marker::Model;

/// Rows that have one value for each kind, which contracts see as the kinds and the list of the rows.
#[derive(Debug, Drop)]
pub struct Rows {
    kinds: Vec<Kind>,
    /// One for each kind, in the order of the kinds.
    columns: Vec<Column>,
    /// How many rows there are: as many as each column has values.
    len: usize,
    alloc: Global,
}

impl Model for Rows {
    ghost use Rattle.pj_value.specs.Rows.{KindedRows};

    ghost Value = { KindedRows };

    ghost use Rattle.pj_value.specs.Columns.{rows_of, values_of};
    ghost use Rattle.pj_value.specs.Layout.{AreColumnsOf};

    ghost view = { λ r. record { kinds = r.kinds.items; rows = rows_of (values_of r.columns.items) r.len } };

    ghost invariant = { λ r. AreColumnsOf r.len r.kinds.items r.columns.items };
}

impl Rows {
    /// No rows, of these kinds, which are copied.
    pub fn new(alloc: Global, kinds: &[Kind]) -> Result<Rows, NoMemory>
        ensures { IfOk result (λ r. r ≡ no_rows kinds.now) }
    {
        let columns = empty_columns(alloc, kinds)?;
        let kinds = Vec::from_slice(alloc, kinds)?;
        Ok(Rows {
            kinds,
            columns,
            len: 0,
            alloc,
        })
    }

    /// So many rows of no columns. Takes no memory.
    pub fn of_no_columns(alloc: Global, len: usize) -> Rows
        ensures { result ≡ rows_of_no_columns len }
    {
        Rows {
            kinds: Vec::new(alloc),
            columns: Vec::new(alloc),
            len,
            alloc,
        }
    }

    /// The rows whose values in each column are those of one of these columns, which are moved.
    pub fn from_columns(alloc: Global, columns: Vec<Column>) -> Result<Rows, NoMemory>
        requires some { 0 < length columns.items }
        requires lengths { All (λ c. length c.values ≡ rows_in columns.items) columns.items }
        ensures { IfOk result (λ r. r ≡ rows_joined columns.items) }
    {
        let kinds = column_kinds(alloc, columns.as_slice())?;
        let len = columns[0].len();
        Ok(Rows {
            kinds,
            columns,
            len,
            alloc,
        })
    }

    /// How many rows there are.
    pub fn len(&self) -> usize
        ensures { result ≡ length self.now.rows }
    {
        self.len
    }

    /// Whether there are no rows.
    pub fn is_empty(&self) -> bool
        ensures { IsTrue result ↔ (self.now.rows ≡ []) }
    {
        self.len == 0
    }

    /// The kinds of the columns, lent. A caller learns here that each row has one value of each
    /// kind, and that each value fits.
    pub fn kinds(&self) -> &[Kind]
        ensures kinds { result.now ≡ self.now.kinds }
        ensures shape { HaveKinds self.now.kinds self.now.rows }
        ensures fits { AllByRecursion (λ row. AllByRecursion Fits row) self.now.rows }
    {
        columns_fit(self.columns.as_slice());
        self.kinds.as_slice()
    }

    /// Adds a copy of the row behind the others, in amortised constant time for each value beside the copies
    /// of texts. The shape is tested before any memory is taken. More rows than a word can count are refused
    /// as out of memory: no memory holds as many, unless they have no columns.
    pub fn push(&mut self, row: &[Value]) -> Result<(), PushFault>
        ensures added { OnOk result (self.new ≡ record self.old { rows = self.old.rows ++ row.now ∷ [] }) }
        ensures fits { OnOk result (map kind_of row.now ≡ self.old.kinds) }
        ensures shape { (result ≡ Err PushFault.WrongShape) ↔ (map kind_of row.now ≡ self.old.kinds → ⊥) }
        ensures same { OnErr result (self.new ≡ self.old) }
    {
        if !fits(row, self.kinds.as_slice()) {
            return Err(PushFault::WrongShape);
        }
        let Some(len) = self.len.checked_add(1) else {
            return Err(PushFault::NoMemory);
        };
        match push_row(&mut self.columns, row, self.alloc) {
            Ok(()) => {
                self.len = len;
                Ok(())
            }
            Err(fault) => {
                truncate_columns(&mut self.columns, self.len);
                Err(fault)
            }
        }
    }

    /// The value of a row in a column, lent.
    pub fn cell(&self, row: usize, column: usize) -> Cell<'_>
        requires row { row < length self.now.rows }
        requires column { column < length self.now.kinds }
        ensures { value_of result ≡ value_at self.now.rows row column }
    {
        self.columns[column].cell(row)
    }

    /// A column, lent, whose values are those of the rows in it.
    pub fn column(&self, at: usize) -> &Column
        requires { at < length self.now.kinds }
        ensures { result.now ≡ column_of self.now at }
    {
        &self.columns[at]
    }

    /// The rows at these indexes, in this order, in memory of their own.
    pub fn gather(&self, indexes: &[usize]) -> Result<Rows, NoMemory>
        requires { All (λ at. at < length self.now.rows) indexes.now }
        ensures { IfOk result (λ r. r ≡ record self.now { rows = rows_at self.now.rows indexes.now }) }
    {
        Ok(Rows {
            kinds: Vec::from_slice(self.alloc, self.kinds.as_slice())?,
            columns: gather_columns(self.alloc, self.columns.as_slice(), indexes)?,
            len: indexes.len(),
            alloc: self.alloc,
        })
    }

    /// Sorts the rows by their values in these columns, the first of them first.
    ///
    /// Rows that are equal in all of them keep their order. In a column that isn't there all rows are equal.
    ///
    /// With n rows it takes n times the logarithm of n comparisons, and copies each column once.
    pub fn sort_by(&mut self, keys: &[usize]) -> Result<(), NoMemory>
        ensures sorted { OnOk result (IsSortedBy keys.now self.old.rows self.new.rows) }
        ensures kinds { self.new.kinds ≡ self.old.kinds }
        ensures same { OnErr result (self.new ≡ self.old) }
    {
        let indexes = sorted_indexes(self.alloc, self.columns.as_slice(), keys, self.len)?;
        let columns = gather_columns(self.alloc, self.columns.as_slice(), indexes.as_slice())?;
        self.columns = columns;
        Ok(())
    }

    /// Drops the rows from this index on.
    pub fn truncate(&mut self, len: usize)
        ensures { self.new ≡ record self.old { rows = take len self.old.rows } }
    {
        if len < self.len {
            truncate_columns(&mut self.columns, len);
            self.len = len;
        }
    }

    /// Adds copies of other rows of these kinds behind the rows, in time linear in the rows that are added.
    pub fn append(&mut self, more: &Rows) -> Result<(), NoMemory>
        requires kinds { more.now.kinds ≡ self.old.kinds }
        ensures added { OnOk result (self.new ≡ record self.old { rows = self.old.rows ++ more.now.rows }) }
        ensures same { OnErr result (self.new ≡ self.old) }
    {
        let Some(len) = self.len.checked_add(more.len) else {
            return Err(NoMemory);
        };
        match append_columns(&mut self.columns, more.columns.as_slice(), self.alloc) {
            Ok(()) => {
                self.len = len;
                Ok(())
            }
            Err(fault) => {
                truncate_columns(&mut self.columns, self.len);
                Err(fault)
            }
        }
    }

    /// The same rows, in memory of their own.
    pub fn duplicate(&self) -> Result<Rows, NoMemory>
        ensures { IfOk result (λ r. r ≡ self.now) }
    {
        Ok(Rows {
            kinds: Vec::from_slice(self.alloc, self.kinds.as_slice())?,
            columns: duplicate_columns(self.alloc, self.columns.as_slice())?,
            len: self.len,
            alloc: self.alloc,
        })
    }
}
