//! Rows and queries that tests are given, read from statements over one table.
use pj_bind::bind;
use pj_bind::types::Bound;
use pj_expr::{Query, Table};
use pj_journal::types::Catalog;
use pj_parse::types::Statement;
use pj_value::{NoMemory, Rows};
use std::alloc::Global;

/// The table of a number and a text.
const TABLE: &[u8] = b"CREATE TABLE t (k UInt64, s String) ENGINE = MergeTree ORDER BY k";

/// Three rows.
pub(crate) const THREE: &[u8] =
    b"INSERT INTO t VALUES (7, 'a'), (18446744073709551615, ''), (10, 'ab\xff')";

/// Four rows, of which the last two share their number, and the first and the last their text.
pub(crate) const FOUR: &[u8] =
    b"INSERT INTO t VALUES (7, 'a'), (18446744073709551615, ''), (10, 'ab\xff'), (10, 'a')";

/// These four, and one more.
pub(crate) const FIVE: &[u8] =
    b"INSERT INTO t VALUES (7, 'a'), (18446744073709551615, ''), (10, 'ab\xff'), (10, 'a'), (3, 'b')";

/// The statement of a body, which is one.
fn statement_of(alloc: Global, body: &[u8]) -> Option<Statement> {
    let tokens = pj_lex::tokens(alloc, body).ok()?;
    pj_parse::statement(alloc, body, tokens.as_slice()).ok()
}

/// What a statement binds to over these tables, which isn't refused.
fn bound_of(alloc: Global, statement: &Statement, tables: &Catalog) -> Option<Bound> {
    bind(alloc, statement, tables).ok()
}

/// What a body binds to over these tables.
fn bound(alloc: Global, body: &[u8], tables: &Catalog) -> Option<Bound> {
    let statement = statement_of(alloc, body)?;
    bound_of(alloc, &statement, tables)
}

/// The table of a CREATE.
fn table_of(alloc: Global, create: &[u8]) -> Option<Table> {
    match bound(alloc, create, &Catalog::new(alloc))? {
        Bound::Create(table) => Some(table),
        _ => None,
    }
}

/// The table alone.
fn tables(alloc: Global) -> Option<Catalog> {
    let table = table_of(alloc, TABLE)?;
    let mut tables = Catalog::new(alloc);
    tables.add(table).ok()?;
    Some(tables)
}

/// What a body binds to over the table.
fn bound_alone(alloc: Global, body: &[u8]) -> Option<Bound> {
    let tables = tables(alloc)?;
    bound(alloc, body, &tables)
}

/// The rows of an INSERT.
pub(crate) fn rows_of(alloc: Global, insert: &[u8]) -> Result<Rows, NoMemory> {
    match bound_alone(alloc, insert) {
        Some(Bound::Insert { rows, .. }) => Ok(rows),
        _ => Err(NoMemory),
    }
}

/// The query of a SELECT.
pub(crate) fn query_of(alloc: Global, select: &[u8]) -> Result<Query, NoMemory> {
    match bound_alone(alloc, select) {
        Some(Bound::Select { query, .. }) => Ok(query),
        _ => Err(NoMemory),
    }
}
