//! What no clause says: that calls succeed where memory is ample, and worked texts.
use pj_bind::types::{LimitName, Refusal};
use pj_bind::{BindFault, bind};
use pj_expr::{ColumnDef, LightMode, Table};
use pj_grammar::types::Statement;
use pj_journal::types::Catalog;
use pj_journal::{Actor, Entry, Journal, What};
use pj_legal::{Parsed, Reply, history_text, read_statement, reply_text};
use pj_script::types::{Act, Script, ScriptLine};
use pj_value::{Kind, List, NoMemory, Rows, Text, Value};
use std::alloc::Global;
use std::test::Fail;

/// The reply to a statement for these tables, `Done` where it binds.
fn bound_reply(alloc: Global, statement: &Statement, tables: &Catalog) -> Result<Reply, NoMemory> {
    match bind(alloc, statement, tables) {
        Ok(_bound) => Ok(Reply::Done),
        Err(BindFault::Refused(refusal)) => Ok(Reply::Refused(refusal)),
        Err(BindFault::NoMemory) => Err(NoMemory),
    }
}

fn reply_to(alloc: Global, body: &[u8], tables: &Catalog) -> Result<Reply, NoMemory> {
    let parsed = read_statement(alloc, body)?;
    match parsed {
        Parsed::Refused(refusal) => Ok(Reply::Refused(refusal)),
        Parsed::Statement(statement) => bound_reply(alloc, &statement, tables),
    }
}

/// A column of a table.
fn column(alloc: Global, name: &[u8], kind: Kind) -> Result<ColumnDef, NoMemory> {
    let name = Text::new(alloc, name)?;
    Ok(ColumnDef { name, kind })
}

/// The table t of a number k, its key, and a text s.
fn table(alloc: Global) -> Result<Table, NoMemory> {
    let mut columns = Vec::new(alloc);
    columns.push(column(alloc, b"k", Kind::Num)?)?;
    columns.push(column(alloc, b"s", Kind::Text)?)?;
    Ok(Table {
        name: Text::new(alloc, b"t")?,
        columns: List::from_vec(columns),
        key: List::from_vec(vec![in alloc; 0usize]?),
        granularity: 8192,
        mode: LightMode::Throw,
    })
}

/// This table alone.
fn one_table(alloc: Global) -> Result<Catalog, NoMemory> {
    let mut tables = Catalog::new(alloc);
    tables.add(table(alloc)?)?;
    Ok(tables)
}

/// Whether the reply has this text.
fn is_text(alloc: Global, reply: &Reply, expected: &str) -> Result<bool, NoMemory> {
    let name = Text::new(alloc, b"a")?;
    let text = reply_text(alloc, 1, &name, reply)?;
    Ok(text.as_slice() == expected.as_bytes())
}

/// Whether the reply to the body has this text, for these tables.
fn has_reply(
    alloc: Global,
    body: &[u8],
    tables: &Catalog,
    expected: &str,
) -> Result<bool, NoMemory> {
    let reply = reply_to(alloc, body, tables)?;
    is_text(alloc, &reply, expected)
}

#[test]
fn a_body_binds_or_has_its_first_refusal(rt: HostRuntime) -> Result<(), Fail> {
    let none = Catalog::new(rt.alloc());
    for (body, expected) in [
        (
            "CREATE TABLE t (x UInt64) ENGINE = MergeTree ORDER BY x",
            "1 a ok\n",
        ),
        (
            "create table t (x UInt64) engine = MergeTree() order by (x);",
            "1 a ok\n",
        ),
        (
            "CREATE TABLE t (x UInt64) ENGINE = MergeTree ORDER BY y",
            "1 a UNKNOWN_IDENTIFIER y\n",
        ),
        (
            "CREATE TABLE t (x UInt64, x String) ENGINE = MergeTree ORDER BY y",
            "1 a DUPLICATE_COLUMN x\n",
        ),
        ("SELECT count(*) FROM u", "1 a UNKNOWN_TABLE u\n"),
        ("INSERT INTO u VALUES (1)", "1 a UNKNOWN_TABLE u\n"),
        ("SELECT x FROM u GROUP BY x", "1 a UNKNOWN_TABLE u\n"),
        ("OPTIMIZE TABLE u FINAL", "1 a NOT_BUILT\n"),
        ("SELECT count() FROM", "1 a SYNTAX_ERROR 19\n"),
        ("SELECT , FROM u", "1 a SYNTAX_ERROR 7\n"),
        ("SELECT 'x FROM u", "1 a SYNTAX_ERROR 7\n"),
    ] {
        assert!(rt;
            has_reply(rt.alloc(), body.as_bytes(), &none, expected)?,
            "{body}"
        );
    }
    Ok(())
}

#[test]
fn a_table_refuses_by_its_columns(rt: HostRuntime) -> Result<(), Fail> {
    let tables = one_table(rt.alloc())?;
    for (body, expected) in [
        (
            "CREATE TABLE t (k UInt64, s String) ENGINE = MergeTree ORDER BY k",
            "1 a TABLE_ALREADY_EXISTS t\n",
        ),
        ("SELECT k, s FROM t", "1 a ok\n"),
        ("SELECT k + x FROM t", "1 a UNKNOWN_IDENTIFIER x\n"),
        ("SELECT k FROM t WHERE s", "1 a TYPE_MISMATCH\n"),
        ("SELECT k, count() FROM t", "1 a NOT_AN_AGGREGATE\n"),
        (
            "INSERT INTO t (s, s) VALUES (1, 2)",
            "1 a DUPLICATE_COLUMN s\n",
        ),
        ("INSERT INTO t VALUES ('x', 1)", "1 a TYPE_MISMATCH\n"),
    ] {
        assert!(rt;
            has_reply(rt.alloc(), body.as_bytes(), &tables, expected)?,
            "{body}"
        );
    }
    Ok(())
}

/// A body with `count` times this piece between its prefix and its end.
fn filled(
    alloc: Global,
    prefix: &str,
    piece: &str,
    count: usize,
    end: &str,
) -> Result<Text, NoMemory> {
    let mut body = Vec::from_slice(alloc, prefix.as_bytes())?;
    for _ in 0..count {
        body.extend_from_slice(piece.as_bytes())?;
    }
    body.extend_from_slice(end.as_bytes())?;
    Ok(Text::from_vec(body))
}

#[test]
fn the_first_limit_is_told(rt: HostRuntime) -> Result<(), Fail> {
    let none = Catalog::new(rt.alloc());
    for (prefix, piece, count, end, expected) in [
        (
            "SELECT '",
            "x",
            65_535usize,
            "' FROM u",
            "1 a UNKNOWN_TABLE u\n",
        ),
        ("SELECT '", "x", 65_536, "' FROM u", "1 a LIMIT TEXT\n"),
        (
            "SELECT ('",
            "x",
            65_536,
            "' FROM u",
            "1 a SYNTAX_ERROR 65547\n",
        ),
        ("", "(", 1_024, "", "1 a SYNTAX_ERROR 0\n"),
        ("", "(", 1_025, "", "1 a LIMIT TOKENS\n"),
        ("", "(", 1_025, "'", "1 a SYNTAX_ERROR 1025\n"),
        (
            "INSERT INTO u VALUES (1)",
            ";",
            1_025,
            "",
            "1 a SYNTAX_ERROR 25\n",
        ),
        (
            "CREATE TABLE t (x UInt64",
            ", x String",
            63,
            ") ENGINE = MergeTree ORDER BY x",
            "1 a DUPLICATE_COLUMN x\n",
        ),
        (
            "CREATE TABLE t (x UInt64",
            ", x String",
            64,
            ") ENGINE = MergeTree ORDER BY x",
            "1 a LIMIT COLUMNS\n",
        ),
    ] {
        let body = filled(rt.alloc(), prefix, piece, count, end)?;
        assert!(rt;
            has_reply(rt.alloc(), body.as_slice(), &none, expected)?,
            "{expected}"
        );
    }
    Ok(())
}

#[test]
fn a_reply_has_its_text_lines(rt: HostRuntime) -> Result<(), Fail> {
    let alloc = rt.alloc();
    let name = Text::new(alloc, b"a")?;
    let mut rows = Rows::new(alloc, &[Kind::Num, Kind::Text])?;
    rows.push(&[Value::Num(7), Value::Text(Text::new(alloc, b"x\ty")?)])?;
    let answer = reply_text(alloc, 3, &name, &Reply::Rows(rows))?;
    assert!(rt; answer.as_slice() == b"3 a rows 1\n7\tx\\ty\n".as_slice());
    let full = reply_text(
        alloc,
        12,
        &name,
        &Reply::Refused(Refusal::Limit(LimitName::History)),
    )?;
    assert!(rt; full.as_slice() == b"12 a LIMIT HISTORY\n".as_slice());
    let syntax = reply_text(alloc, 1, &name, &Reply::Refused(Refusal::Syntax(13)))?;
    assert!(rt; syntax.as_slice() == b"1 a SYNTAX_ERROR 13\n".as_slice());
    Ok(())
}

#[test]
fn a_history_has_a_text_line_for_each_entry(rt: HostRuntime) -> Result<(), Fail> {
    let alloc = rt.alloc();
    let names = vec![in alloc; Text::new(alloc, b"a")?]?;
    let lines = vec![in alloc;
        ScriptLine {
            line: 2,
            name: 0,
            act: Act::Whole(Text::new(alloc, b"x")?)
        },
    ]?;
    let script = Script {
        names: List::from_vec(names),
        lines: List::from_vec(lines),
    };
    let mut journal = Journal::new(alloc, 9);
    journal.reserve()?;
    journal.add(Entry {
        actor: Actor::Session(0),
        line: 2,
        what: What::Refused,
    });
    let text = history_text(alloc, &script, &journal)?;
    assert!(rt; text.as_slice() == b"history 1\n1 a 2 refused\n".as_slice());
    assert!(rt; script.lines.into_vec().len() == 1);
    Ok(())
}
