//! The types of bound statements and of refusals.
use pj_expr::{Query, Table};
use pj_value::{Rows, Text};

/// A statement, with numbers for names.
#[derive(Debug, Drop)]
pub enum Bound {
    /// CREATE TABLE, with the table that it makes.
    Create(Table),
    /// INSERT of these rows into the table of this number, with a value for each of its columns.
    Insert { table: u32, rows: Rows },
    /// SELECT of the query over the table of this number.
    Select { table: u32, query: Query },
}

/// A limit, by the name that its refusal has.
#[derive(Clone, Copy, Debug, PartialEq, Eq)]
pub enum LimitName {
    /// The tokens of a statement: 1,024, where it isn't an INSERT.
    Tokens,
    /// The bytes of a text: 65,535.
    Text,
    /// The tables that there are: 64.
    Tables,
    /// The columns of a table: 64.
    Columns,
    /// The entries of the journal.
    History,
}

/// A part's name: the blocks that it covers, from the first to the last, its level, and the number of its
/// last mutation, or 0.
#[derive(Clone, Copy, Debug, PartialEq, Eq)]
pub struct PartName {
    pub min: u64,
    pub max: u64,
    pub level: u64,
    pub field: u64,
}

/// Which piece of a part.
#[derive(Clone, Copy, Debug, PartialEq, Eq)]
pub enum SourceName {
    /// Its rows.
    Base,
    /// Which of them are masked.
    Mask,
}

/// Why a statement has no other reply.
#[derive(Debug, Drop)]
pub enum Refusal {
    /// At this offset of the body no token stands, or no statement goes on.
    Syntax(usize),
    /// The limit is reached.
    Limit(LimitName),
    /// No table has the name.
    UnknownTable(Text),
    /// A table has the name already.
    TableExists(Text),
    /// The name stands twice among columns that must differ.
    DuplicateColumn(Text),
    /// The name is no column, and no alias where aliases count.
    UnknownIdentifier(Text),
    /// A value has another kind than is wanted there, or is a condition, or the other way round; or a row has
    /// more or fewer literals than it fills columns.
    TypeMismatch,
    /// An item or a key of ORDER BY of a query that aggregates is no call, and isn't built of GROUP BY values
    /// and literals.
    NotAnAggregate,
    /// This form of statement isn't built yet.
    NotBuilt,
    /// The port failed to keep or to read bytes. No body is refused so: the statement binds, and has moved.
    StoreFault,
    /// The bytes that were read of a granule of this column are none, from this offset of the granule on. No
    /// body is refused so, and no statement where blobs tell their bytes.
    Damaged {
        part: PartName,
        source: SourceName,
        column: usize,
        granule: usize,
        at: u64,
    },
    /// Out of memory.
    NoMemory,
}
