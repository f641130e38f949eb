use pj_lex::tokens;
use pj_parse::types::{Statement, Tree, TreeItem, TreeOp};
use pj_parse::{ParseFault, read_insert, statement};
use pj_value::Value;
use std::alloc::Global;
use std::process::Abort;
use std::test::*;

/// Whether the tree is the sum of this column and this number.
fn is_sum(tree: &Tree, column: &[u8], number: u64) -> bool {
    match tree {
        Tree::Pair(TreeOp::Add, left, right) => match (left.get(), right.get()) {
            (Tree::Name(name), Tree::Num(n)) => name.as_slice() == column && *n == number,
            _ => false,
        },
        _ => false,
    }
}

/// Whether the statement is `SELECT a + 1 AS b FROM t LIMIT 3`.
fn is_wanted(read: &Statement) -> bool {
    let Statement::Select(select) = read else {
        return false;
    };
    let Some(items) = &select.items else {
        return false;
    };
    let [item] = items.as_slice() else {
        return false;
    };
    let TreeItem::Value(tree) = &item.item else {
        return false;
    };
    let Some(alias) = &item.alias else {
        return false;
    };
    is_sum(tree, b"a", 1)
        && alias.as_slice() == b"b".as_slice()
        && select.table.as_slice() == b"t".as_slice()
        && select.limit == Some(3)
        && select.filter.is_none()
}

fn expect_fault(rt: &impl Abort, alloc: Global, body: &[u8], wanted: ParseFault) {
    match tokens(alloc, body) {
        Ok(found) => match statement(alloc, body, found.as_slice()) {
            Ok(_) => assert!(rt; false, "a statement in place of {wanted}"),
            Err(fault) => assert_eq!(rt; fault, wanted),
        },
        Err(fault) => assert!(rt; false, "{fault} in place of {wanted}"),
    }
}

#[test]
fn a_select_is_read(rt: HostRuntime) {
    let alloc = rt.alloc();
    let body = b"select a + 1 as b FROM t LIMIT 3;".as_slice();
    match tokens(alloc, body) {
        Ok(found) => match statement(alloc, body, found.as_slice()) {
            Ok(read) => assert!(rt; is_wanted(&read), "another statement"),
            Err(fault) => assert!(rt; false, "{fault} in place of a statement"),
        },
        Err(fault) => assert!(rt; false, "{fault} in place of tokens"),
    }
}

/// Whether it is `INSERT INTO t (k, s) VALUES (1, ''), (2, 'a''b')`.
fn is_wanted_insert(read: &Statement) -> bool {
    let Statement::Insert {
        table,
        columns: Some(columns),
        rows,
    } = read
    else {
        return false;
    };
    table.as_slice() == b"t".as_slice()
        && columns.as_slice().len() == 2
        && rows.len() == 2
        && is_wanted_row(rows.row(1))
}

fn is_wanted_row(row: &[Value]) -> bool {
    match row {
        [Value::Num(n), Value::Text(text)] => *n == 2 && text.as_slice() == b"a'b".as_slice(),
        _ => false,
    }
}

#[test]
fn an_insert_is_read_at_once(rt: HostRuntime) {
    let body = b"insert INTO t(k, s)VALUES(1, ''),\t(2 , 'a''b') ;";
    match read_insert(rt.alloc(), body, 3) {
        Ok(Some(read)) => assert!(rt; is_wanted_insert(&read), "another INSERT"),
        _ => assert!(rt; false, "no INSERT"),
    }
}

#[test]
fn what_is_no_plain_insert_is_left(rt: HostRuntime) {
    let bodies: [&[u8]; 5] = [
        b"INSERT INTO t VALUES (1), (",
        b"INSERT INTO t VALUES (1) (2)",
        b"INSERT INTO t VALUES ('abcd')",
        b"INSERT INTO min VALUES (1)",
        b"SELECT k FROM t",
    ];
    for body in &bodies {
        match read_insert(rt.alloc(), *body, 3) {
            Ok(None) => {}
            _ => assert!(rt; false, "an INSERT"),
        }
    }
}

#[test]
fn an_error_has_its_offset(rt: HostRuntime) {
    let alloc = rt.alloc();
    expect_fault(&rt, alloc, b"SELECT FROM t", ParseFault::Syntax { at: 7 });
    expect_fault(&rt, alloc, b"SELECT x FROM", ParseFault::Syntax { at: 13 });
    expect_fault(&rt, alloc, b"MERGE t t", ParseFault::Syntax { at: 8 });
    expect_fault(&rt, alloc, b"", ParseFault::Syntax { at: 0 });
}
