//! Answers of queries, by the plain program and by columns.
use crate::given::{FIVE, FOUR, query_of, rows_of};
use pj_answer::answer;
use pj_expr::{Query, aggregates, fits_query};
use pj_group::select;
use pj_value::{Column, NoMemory, Rows};
use std::alloc::Global;
use std::test::Fail;

/// Whether a column has these numbers. One of texts has none.
fn has_numbers(column: &Column, numbers: &[u64]) -> bool {
    match column.numbers() {
        Some(found) => found == numbers,
        None => numbers.is_empty(),
    }
}

/// Whether a column has these texts. One of numbers has none.
fn has_texts(column: &Column, texts: &[&[u8]]) -> bool {
    match column.texts() {
        Some(found) => {
            found.len() == texts.len() && found.iter().zip(texts).all(|(a, b)| a.as_slice() == *b)
        }
        None => texts.is_empty(),
    }
}

/// Whether the first column has these numbers and the last these texts.
fn have(rows: &Rows, numbers: &[u64], texts: &[&[u8]]) -> bool {
    let columns = rows.kinds().len();
    if columns == 0 {
        return false;
    }
    has_numbers(rows.column(0), numbers) && has_texts(rows.column(columns - 1), texts)
}

/// Whether a query gives these numbers in its first column and these texts in its last, by columns.
fn gives_by_columns(
    alloc: Global,
    query: &Query,
    rows: &Rows,
    numbers: &[u64],
    texts: &[&[u8]],
) -> Result<bool, NoMemory> {
    if !fits_query(query, rows.kinds()) {
        return Ok(false);
    }
    let out = select(alloc, query, rows)?;
    Ok(have(&out, numbers, texts))
}

/// The same, by the plain program.
fn gives_plainly(
    alloc: Global,
    query: &Query,
    rows: &Rows,
    numbers: &[u64],
    texts: &[&[u8]],
) -> Result<bool, NoMemory> {
    if !fits_query(query, rows.kinds()) {
        return Ok(false);
    }
    let out = answer(alloc, query, rows)?;
    Ok(have(&out, numbers, texts))
}

/// Whether a query gives these numbers and texts in both ways.
fn gives(
    alloc: Global,
    query: &Query,
    rows: &Rows,
    numbers: &[u64],
    texts: &[&[u8]],
) -> Result<bool, NoMemory> {
    Ok(
        gives_by_columns(alloc, query, rows, numbers, texts)?
            && gives_plainly(alloc, query, rows, numbers, texts)?,
    )
}

/// Whether a SELECT gives these numbers and texts over these rows.
fn select_gives(
    alloc: Global,
    select: &[u8],
    rows: &Rows,
    numbers: &[u64],
    texts: &[&[u8]],
) -> Result<bool, NoMemory> {
    let query = query_of(alloc, select)?;
    gives(alloc, &query, rows, numbers, texts)
}

/// Whether a SELECT gives these numbers and texts over the rows of an INSERT.
fn is_answered(
    alloc: Global,
    insert: &[u8],
    select: &[u8],
    numbers: &[u64],
    texts: &[&[u8]],
) -> Result<bool, NoMemory> {
    let rows = rows_of(alloc, insert)?;
    select_gives(alloc, select, &rows, numbers, texts)
}

/// Queries, with the numbers and the texts of their answers over (7, 'a'), (2^64 - 1, ''), (10, 'ab\xff'), (10, 'a')
/// and (3, 'b').
static QUERIES: [(&[u8], &[u64], &[&[u8]]); 16] = [
    (
        b"SELECT k, s FROM t WHERE k != 3 ORDER BY k DESC, s LIMIT 3",
        &[18446744073709551615, 10, 10],
        &[b"", b"a", b"ab\xff"],
    ),
    (
        b"SELECT k, s FROM t ORDER BY s",
        &[18446744073709551615, 7, 10, 10, 3],
        &[b"", b"a", b"a", b"ab\xff", b"b"],
    ),
    (
        b"SELECT k FROM t ORDER BY k",
        &[3, 7, 10, 10, 18446744073709551615],
        &[],
    ),
    (
        b"SELECT k FROM t ORDER BY 0 DESC",
        &[7, 18446744073709551615, 10, 10, 3],
        &[],
    ),
    (
        b"SELECT k FROM t ORDER BY k LIMIT 18446744073709551615",
        &[3, 7, 10, 10, 18446744073709551615],
        &[],
    ),
    (b"SELECT k FROM t ORDER BY k LIMIT 0", &[], &[]),
    // A literal key leaves the next to decide.
    (
        b"SELECT k FROM t ORDER BY 'x' DESC, k",
        &[3, 7, 10, 10, 18446744073709551615],
        &[],
    ),
    (
        b"SELECT 5, s FROM t WHERE k >= 10 LIMIT 2",
        &[5, 5],
        &[b"", b"ab\xff"],
    ),
    (b"SELECT 5, 'x' FROM t WHERE k < 10", &[5, 5], &[b"x", b"x"]),
    (b"SELECT count() FROM t", &[5], &[]),
    (b"SELECT count(), 5 FROM t WHERE k < 10", &[2], &[]),
    (b"SELECT count() FROM t LIMIT 0", &[], &[]),
    (b"SELECT count(), 'x' FROM t WHERE k < 10", &[2], &[b"x"]),
    (b"SELECT count(), 'x' FROM t WHERE k < 3", &[0], &[b"x"]),
    // Literals stand once beside an order by a count.
    (b"SELECT 5, 'x' FROM t ORDER BY count()", &[5], &[b"x"]),
    (
        b"SELECT (k + 1) * k, s FROM t WHERE k <= 10 ORDER BY s DESC LIMIT 3",
        &[12, 110, 56],
        &[b"b", b"ab\xff", b"a"],
    ),
];

#[test]
fn queries_are_answered(rt: HostRuntime) -> Result<(), Fail> {
    for (select, numbers, texts) in &QUERIES {
        assert!(rt;
            is_answered(rt.alloc(), FIVE, select, numbers, texts)?,
            "{select:?}"
        );
    }
    Ok(())
}

/// Calls, with the numbers and the texts of their answers over (7, 'a'), (2^64 - 1, ''), (10, 'ab\xff') and (10, 'a').
static CALLS: [(&[u8], &[u64], &[&[u8]]); 19] = [
    // Numbers go by their size.
    (b"SELECT sum(k) FROM t", &[26], &[]),
    (b"SELECT sum(k) FROM t WHERE k != 7", &[19], &[]),
    (b"SELECT sum(k) FROM t WHERE k < 7", &[0], &[]),
    (b"SELECT min(k) FROM t", &[7], &[]),
    (b"SELECT min(k) FROM t WHERE k != 7", &[10], &[]),
    (b"SELECT min(k) FROM t WHERE k < 7", &[0], &[]),
    (b"SELECT max(k) FROM t", &[18446744073709551615], &[]),
    (
        b"SELECT max(k) FROM t WHERE k != 7",
        &[18446744073709551615],
        &[],
    ),
    (b"SELECT max(k) FROM t WHERE k < 7", &[0], &[]),
    (b"SELECT uniqExact(k) FROM t", &[3], &[]),
    (b"SELECT uniqExact(k) FROM t WHERE k != 7", &[2], &[]),
    (b"SELECT uniqExact(k) FROM t WHERE k < 7", &[0], &[]),
    // Texts go by their bytes.
    (b"SELECT min(s) FROM t WHERE k = 10", &[], &[b"a"]),
    (b"SELECT max(s) FROM t", &[], &[b"ab\xff"]),
    (b"SELECT min(s) FROM t WHERE k < 7", &[], &[b""]),
    (b"SELECT max(s) FROM t WHERE k < 7", &[], &[b""]),
    (b"SELECT uniqExact(s) FROM t", &[3], &[]),
    (b"SELECT uniqExact(s) FROM t WHERE k = 10", &[2], &[]),
    (b"SELECT uniqExact(s) FROM t WHERE k < 7", &[0], &[]),
];

#[test]
fn calls_go_by_size_and_bytes(rt: HostRuntime) -> Result<(), Fail> {
    for (select, numbers, texts) in &CALLS {
        assert!(rt;
            is_answered(rt.alloc(), FOUR, select, numbers, texts)?,
            "{select:?}"
        );
    }
    Ok(())
}

/// Three rows, of which the first and the last are the same.
const TWINS: &[u8] = b"INSERT INTO t VALUES (7, 'a'), (7, 'b'), (7, 'a')";

/// Counts of these rows in groups, the least count first.
static COUNTS: [(&[u8], &[u64]); 3] = [
    (
        b"SELECT count() FROM t GROUP BY s ORDER BY count()",
        &[1, 2],
    ),
    (
        b"SELECT count() FROM t GROUP BY k, s ORDER BY count()",
        &[1, 2],
    ),
    (b"SELECT count() FROM t GROUP BY k ORDER BY count()", &[3]),
];

#[test]
fn rows_with_one_key_are_one_group(rt: HostRuntime) -> Result<(), Fail> {
    for (select, numbers) in &COUNTS {
        assert!(rt;
            is_answered(rt.alloc(), TWINS, select, numbers, &[])?,
            "{select:?}"
        );
    }
    Ok(())
}

/// Queries, and whether they aggregate.
static AGGREGATES: [(&[u8], bool); 3] = [
    (b"SELECT count(), 5 FROM t", true),
    (b"SELECT 5 FROM t ORDER BY count()", true),
    (b"SELECT k FROM t ORDER BY s", false),
];

/// Whether a SELECT aggregates.
fn is_aggregate(alloc: Global, select: &[u8]) -> Result<bool, NoMemory> {
    let query = query_of(alloc, select)?;
    Ok(aggregates(&query))
}

#[test]
fn a_call_among_items_or_keys_aggregates(rt: HostRuntime) -> Result<(), Fail> {
    for (select, wanted) in &AGGREGATES {
        assert!(rt; is_aggregate(rt.alloc(), select)? == *wanted, "{select:?}");
    }
    Ok(())
}
