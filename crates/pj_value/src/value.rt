//! A value of a table, its kind, and a value that is lent.
ghost use Rattle.std.specs.Prelude.{◌≡◌, IfOk};
ghost use Rattle.pj_value.specs.Values.{kind_of, value_of};
ghost use Rattle.pj_value.specs.Order.{value_cmp};

use crate::memory::NoMemory;
use crate::text::Text;
use std::alloc::Global;
use std::cmp::Ordering;

/// The kind of a column.
#[derive(Clone, Copy, Debug, PartialEq, Eq)]
pub enum Kind {
    /// `UInt64`.
    Num,
    /// `String`.
    Text,
}

/// One value of a row.
#[derive(Debug, Drop)]
pub enum Value {
    /// A number of 64 bits.
    Num(u64),
    /// Bytes, in no encoding.
    Text(Text),
}

/// One value of a row, lent from where it lies.
#[derive(Clone, Copy, Debug)]
pub enum Cell<'a> {
    /// A number of 64 bits.
    Num(u64),
    /// Bytes, in no encoding.
    Text(&'a Text),
}

/// An aggregate function.
#[derive(Clone, Copy, Debug, PartialEq, Eq)]
pub enum AggKind {
    /// `count()`: the number of rows, modulo 2^64.
    Count,
    /// `sum(v)`: the total, modulo 2^64.
    Sum,
    /// `min(v)`: the least value.
    Min,
    /// `max(v)`: the greatest value.
    Max,
    /// `uniqExact(v)`: the number of distinct values.
    UniqExact,
}

impl Value {
    /// The kind of the columns that take this value.
    pub fn kind(&self) -> Kind
        ensures { result ≡ kind_of self.now }
    {
        match self {
            Value::Num(_) => Kind::Num,
            Value::Text(_) => Kind::Text,
        }
    }

    /// The same value, lent. Takes no memory.
    pub fn as_cell(&self) -> Cell<'_>
        ensures { value_of result ≡ self.now }
    {
        match self {
            Value::Num(number) => Cell::Num(*number),
            Value::Text(text) => Cell::Text(text),
        }
    }

    /// The same value, which owns its text. A number, and a text of at most 23 bytes, take no memory.
    pub fn duplicate(&self, alloc: Global) -> Result<Value, NoMemory>
        ensures { IfOk result (λ v. v ≡ self.now) }
    {
        match self {
            Value::Num(number) => Ok(Value::Num(*number)),
            Value::Text(text) => Ok(Value::Text(text.duplicate(alloc)?)),
        }
    }
}

impl<'a> Cell<'a> {
    /// The value that is lent, with a copy of its text. A number, and a text of at most 23 bytes, take no
    /// memory.
    pub fn to_value(self, alloc: Global) -> Result<Value, NoMemory>
        ensures { IfOk result (λ v. v ≡ value_of self.entry) }
    {
        match self {
            Cell::Num(number) => Ok(Value::Num(number)),
            Cell::Text(text) => Ok(Value::Text(text.duplicate(alloc)?)),
        }
    }
}

/// How two values that are lent stand to each other. It takes no memory.
pub fn cell_cmp(a: Cell<'_>, b: Cell<'_>) -> Ordering
    ensures { result ≡ value_cmp (value_of a.entry) (value_of b.entry) }
{
    match (a, b) {
        (Cell::Num(m), Cell::Num(n)) => m.cmp(&n),
        (Cell::Num(_), Cell::Text(_)) => Ordering::Less,
        (Cell::Text(_), Cell::Num(_)) => Ordering::Greater,
        (Cell::Text(s), Cell::Text(t)) => s.as_slice().cmp(t.as_slice()),
    }
}
