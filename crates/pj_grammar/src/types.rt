//! What a statement is read as. Lists stand in the order of the text.
pub use crate::value_rows::ValueRows;
use pj_value::{AggKind, Kind, List, Text};
use sqlite_items::Boxed;

/// An operator between two operands.
#[derive(Clone, Copy, Debug, PartialEq, Eq)]
pub enum TreeOp {
    Add,
    Mul,
    Eq,
    Ne,
    Lt,
    Le,
    Gt,
    Ge,
    And,
    Or,
}

/// A value or a condition, with names. Parentheses leave nothing behind but the shape.
#[derive(Debug, Drop)]
pub enum Tree {
    Num(u64),
    Text(Text),
    Name(Text),
    /// The quotient, rounded down. The divisor is at least 1.
    IntDiv(Boxed<Tree>, u64),
    /// The remainder. The divisor is at least 1.
    Mod(Boxed<Tree>, u64),
    Pair(TreeOp, Boxed<Tree>, Boxed<Tree>),
    Not(Boxed<Tree>),
}

/// What an item or an order key computes.
#[derive(Debug, Drop)]
pub enum TreeItem {
    Value(Tree),
    /// A call of an aggregate function. `count` alone has no argument.
    Call(AggKind, Option<Tree>),
}

/// An item, and its name after AS.
#[derive(Debug, Drop)]
pub struct Listed {
    pub item: TreeItem,
    pub alias: Option<Text>,
}

/// A key of ORDER BY.
#[derive(Debug, Drop)]
pub struct TreeOrder {
    pub item: TreeItem,
    pub descending: bool,
}

/// A column of CREATE TABLE.
#[derive(Debug, Drop)]
pub struct TreeColumn {
    pub name: Text,
    pub kind: Kind,
}

/// An assignment of UPDATE.
#[derive(Debug, Drop)]
pub struct TreeAssign {
    pub column: Text,
    pub value: Tree,
}

/// A definition of a projection. No items stand for `*`.
#[derive(Debug, Drop)]
pub struct TreeProj {
    pub name: Text,
    pub items: Option<List<Listed>>,
    pub groups: Option<List<Tree>>,
    pub order: Option<List<Text>>,
}

/// A SELECT. No items stand for `*`; no GROUP BY and no ORDER BY for empty lists.
#[derive(Debug, Drop)]
pub struct TreeSelect {
    pub items: Option<List<Listed>>,
    pub table: Text,
    pub filter: Option<Tree>,
    pub groups: List<Tree>,
    pub order: List<TreeOrder>,
    pub limit: Option<u64>,
    pub sets: List<SetWord>,
}

/// A setting of a statement or a session, with its value.
#[derive(Clone, Copy, Debug, PartialEq, Eq)]
pub enum SetWord {
    /// `optimize_use_projections`.
    UseProjections(bool),
    /// `force_optimize_projection`.
    Force(bool),
    /// `mutations_sync`.
    Sync(bool),
}

/// A value of `lightweight_mutation_projection_mode`.
#[derive(Clone, Copy, Debug, PartialEq, Eq)]
pub enum ModeWord {
    Throw,
    Drop,
    Rebuild,
}

/// A setting of a table, with its value.
#[derive(Clone, Copy, Debug, PartialEq, Eq)]
pub enum TableWord {
    /// `index_granularity`, in rows, from 1 to 65,536.
    Granularity(u32),
    Mode(ModeWord),
}

/// What ALTER TABLE does.
#[derive(Debug, Drop)]
pub enum TreeAction {
    Add {
        if_not_there: bool,
        projection: TreeProj,
    },
    Drop {
        if_there: bool,
        name: Text,
    },
    Materialize {
        if_there: bool,
        name: Text,
    },
    Clear {
        if_there: bool,
        name: Text,
    },
    Delete {
        filter: Tree,
    },
    Update {
        assigns: List<TreeAssign>,
        filter: Tree,
    },
    Mode(ModeWord),
}

/// A statement as it is written, with names where a bound one has numbers.
#[derive(Debug, Drop)]
pub enum Statement {
    Create {
        name: Text,
        columns: List<TreeColumn>,
        projections: List<TreeProj>,
        key: List<Text>,
        settings: List<TableWord>,
    },
    Insert {
        table: Text,
        /// The columns that the rows fill, where they are named.
        columns: Option<List<Text>>,
        rows: ValueRows,
    },
    Select(TreeSelect),
    Explain(TreeSelect),
    Delete {
        table: Text,
        filter: Tree,
        sets: List<SetWord>,
    },
    Alter {
        table: Text,
        action: TreeAction,
        sets: List<SetWord>,
    },
    Optimize(Text),
    Set(List<SetWord>),
    Merge(Text),
    Mutate(Text),
}
