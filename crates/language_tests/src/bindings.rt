//! What no clause says: that calls succeed where memory is ample.
use pj_bind::types::Bound;
use pj_bind::*;
use pj_expr::{ColumnDef, Expr, Item, LightMode, OrderKey, Query, Table};
use pj_journal::types::Catalog;
use pj_value::{Cell, Kind, List, NoMemory, Rows, Text};
use std::alloc::Global;
use std::test::Fail;

fn column(alloc: Global, name: &[u8], kind: Kind) -> Result<ColumnDef, NoMemory> {
    let name = Text::new(alloc, name)?;
    Ok(ColumnDef { name, kind })
}

/// The table `t (k UInt64, s String)`, with the key `k`.
fn table(alloc: Global) -> Result<Table, NoMemory> {
    let mut columns = Vec::new(alloc);
    columns.push(column(alloc, b"k", Kind::Num)?)?;
    columns.push(column(alloc, b"s", Kind::Text)?)?;
    let name = Text::new(alloc, b"t")?;
    let key = Vec::from_slice(alloc, &[0usize])?;
    Ok(Table {
        name,
        columns: List::from_vec(columns),
        key: List::from_vec(key),
        granularity: 8192,
        mode: LightMode::Throw,
    })
}

/// What the body binds to where that is the one table. A refusal is a failure here.
fn bound(alloc: Global, body: &[u8]) -> Result<Bound, NoMemory> {
    let mut tables = Catalog::new(alloc);
    tables.add(table(alloc)?)?;
    let Ok(tokens) = pj_lex::tokens(alloc, body) else {
        return Err(NoMemory);
    };
    let Ok(statement) = pj_parse::statement(alloc, body, tokens.as_slice()) else {
        return Err(NoMemory);
    };
    match bind(alloc, &statement, &tables) {
        Ok(bound) => Ok(bound),
        Err(_) => Err(NoMemory),
    }
}

/// Whether it is a CREATE of a table of this name, with this key.
fn creates(bound: &Bound, name: &[u8], key: &[usize]) -> bool {
    match bound {
        Bound::Create(table) => table.name.as_slice() == name && table.key.as_slice() == key,
        _ => false,
    }
}

#[test]
fn a_table_is_created(rt: HostRuntime) -> Result<(), Fail> {
    let body = b"CREATE TABLE u (a UInt64, b String) ENGINE = MergeTree ORDER BY (b, a)";
    let bound = bound(rt.alloc(), body)?;
    assert!(rt; creates(&bound, b"u", &[1, 0]));
    Ok(())
}

/// Whether the rows are one of this number and this text.
fn is_one_row(rows: &Rows, number: u64, text: &[u8]) -> bool {
    if rows.len() != 1 || rows.kinds().len() != 2 {
        return false;
    }
    match (rows.cell(0, 0), rows.cell(0, 1)) {
        (Cell::Num(first), Cell::Text(second)) => first == number && second.as_slice() == text,
        _ => false,
    }
}

#[test]
fn a_column_that_is_left_out_has_its_default(rt: HostRuntime) -> Result<(), Fail> {
    let Bound::Insert { table, rows } = bound(rt.alloc(), b"INSERT INTO t (s) VALUES ('x')")? else {
        return Err(Fail::from(NoMemory));
    };
    assert!(rt; table == 0 && is_one_row(&rows, 0, b"x"));
    Ok(())
}

/// Whether an item is the column of this number.
fn is_column(item: &Item, column: usize) -> bool {
    match item {
        Item::Plain(Expr::Column(at)) => *at == column,
        _ => false,
    }
}

/// Whether the query orders by one key, the column of this number.
fn orders_by(query: &Query, column: usize, descending: bool) -> bool {
    match query.order.as_slice() {
        [
            OrderKey {
                item,
                descending: down,
            },
        ] => is_column(item, column) && *down == descending,
        _ => false,
    }
}

#[test]
fn an_alias_comes_before_the_column_of_its_name(rt: HostRuntime) -> Result<(), Fail> {
    let Bound::Select { table, query } = bound(rt.alloc(), b"SELECT k AS s FROM t ORDER BY s DESC")?
    else {
        return Err(Fail::from(NoMemory));
    };
    assert!(rt; table == 0 && orders_by(&query, 0, true));
    Ok(())
}
