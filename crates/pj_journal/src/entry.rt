//! An entry of the history: who did what, and for which line of the script.
use pj_expr::Table;
use pj_value::Rows;

/// Who made an entry.
#[derive(Clone, Copy, Debug, PartialEq, Eq)]
pub enum Actor {
    /// A session, by the number of its name in the script.
    Session(u32),
    /// A worker, by its number from 1. Its line is the number of its task.
    Worker(u32),
}

/// What an entry did. Tables are numbered from 0 in the order in which they were created.
#[derive(Debug, Drop)]
pub enum What {
    /// A table was created.
    Created(Table),
    /// A statement was refused.
    Refused,
    /// A SELECT looked at the table.
    Looked { table: u32 },
    /// An INSERT began.
    Begun { table: u32 },
    /// An INSERT committed its rows as the block of this number.
    Inserted { table: u32, block: u64, rows: Rows },
}

/// One entry: one move of an actor.
#[derive(Debug, Drop)]
pub struct Entry {
    pub actor: Actor,
    /// The line of the statement, also where another line ends it; of a worker the number of its task.
    pub line: u32,
    pub what: What,
}
