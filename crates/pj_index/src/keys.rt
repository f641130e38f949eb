//! Ranges of keys, what an index keeps of the keys, and what it selects.
use pj_value::{List, Rows, Value};

/// A range of keys, with its bounds in it. A bound may have fewer values than a key has, or none: a key is
/// compared with it by so many of its first values. So the empty bound leaves out no key.
#[derive(Debug, Drop)]
pub struct KeyRange {
    pub low: List<Value>,
    pub high: List<Value>,
}

/// What a sparse index keeps of the keys of sorted rows.
#[derive(Debug, Drop)]
pub struct KeyMarks {
    /// The key of the first row of each granule, in their order.
    pub firsts: Rows,
    /// The key of the last row. Who builds an index leaves it empty where there is no row.
    pub last: List<Value>,
}

/// Granules that stand side by side, by their indexes: from `from` on, and before `to`.
#[derive(Clone, Copy, Debug, PartialEq, Eq)]
pub struct Span {
    pub from: usize,
    pub to: usize,
}
