//! Rows that are added to groups in two blocks, beside all rows at once.
ghost use Rattle.std.specs.Prelude.{◌≡◌, ◌<◌, ◌≤◌, IfOk, IsTrue, length};
ghost use Rattle.std.specs.List.{All};
ghost use Rattle.pj_expr.specs.Fits.{FitsQuery};

use crate::given::{FIVE, query_of, rows_of};
use pj_expr::{Query, fits_query};
use pj_group::{Groups, select};
use pj_value::{Column, NoMemory, Rows};
use std::alloc::Global;
use std::test::Fail;

/// Whether there is a row at each of these indexes, of which there are so many.
fn are_below(indexes: &[usize], len: usize) -> bool
    ensures { IsTrue result → All (λ at. at < len) indexes.now }
{
    indexes.iter().all(|at| *at < len)
}

/// The rows at these indexes.
fn block_of(rows: &Rows, indexes: &[usize]) -> Result<Rows, NoMemory>
    ensures { IfOk result (λ r. r.kinds ≡ rows.now.kinds) }
{
    if are_below(indexes, rows.len()) {
        rows.gather(indexes)
    } else {
        Err(NoMemory)
    }
}

/// The answer of a query over the rows of two blocks.
fn answer_of_two(alloc: Global, query: &Query, front: &Rows, back: &Rows) -> Result<Rows, NoMemory>
    requires fits { FitsQuery front.now.kinds query.now }
    requires kinds { back.now.kinds ≡ front.now.kinds }
{
    let groups = Groups::new(alloc, query, front.kinds())?;
    let groups = groups.add_rows(query, front)?;
    let groups = groups.add_rows(query, back)?;
    groups.answer(query)
}

/// The indexes of the rows.
static INDEXES: [usize; 5] = [0, 1, 2, 3, 4];

/// The answer of a query over the rows up to a cut and those behind it.
fn answer_cut(alloc: Global, query: &Query, rows: &Rows, cut: usize) -> Result<Rows, NoMemory>
    requires fits { FitsQuery rows.now.kinds query.now }
    requires within { cut ≤ 5 }
{
    let (front, back) = INDEXES.split_at(cut);
    let front = block_of(rows, front)?;
    let back = block_of(rows, back)?;
    answer_of_two(alloc, query, &front, &back)
}

/// Whether two columns have the same values.
fn same_values(a: &Column, b: &Column) -> bool {
    match (a.numbers(), b.numbers()) {
        (Some(a), Some(b)) => a == b,
        _ => same_texts(a, b),
    }
}

/// Whether two columns have the same texts.
fn same_texts(a: &Column, b: &Column) -> bool {
    match (a.texts(), b.texts()) {
        (Some(a), Some(b)) => {
            a.len() == b.len() && a.iter().zip(b).all(|(a, b)| a.as_slice() == b.as_slice())
        }
        _ => false,
    }
}

/// Whether the answers have the same rows.
fn same_rows(a: &Rows, b: &Rows) -> bool {
    let columns = a.kinds().len();
    if a.len() != b.len() || b.kinds().len() != columns {
        return false;
    }
    for at in 0..columns {
        if !same_values(a.column(at), b.column(at)) {
            return false;
        }
    }
    true
}

/// Whether rows in two blocks are answered as all of them at once.
fn gives_the_same(alloc: Global, query: &Query, rows: &Rows, cut: usize) -> Result<bool, NoMemory>
    requires { cut ≤ 5 }
{
    if !fits_query(query, rows.kinds()) {
        return Ok(false);
    }
    let whole = select(alloc, query, rows)?;
    let divided = answer_cut(alloc, query, rows, cut)?;
    Ok(same_rows(&whole, &divided))
}

/// Whether a query is answered the same wherever the five rows are cut.
fn is_answered_by_blocks(alloc: Global, query: &Query, rows: &Rows) -> Result<bool, NoMemory> {
    for cut in 0..6 {
        if !gives_the_same(alloc, query, rows, cut)? {
            return Ok(false);
        }
    }
    Ok(true)
}

/// The same of the query of a SELECT.
fn select_is_answered_by_blocks(
    alloc: Global,
    select: &[u8],
    rows: &Rows,
) -> Result<bool, NoMemory> {
    let query = query_of(alloc, select)?;
    is_answered_by_blocks(alloc, &query, rows)
}

/// Whether a SELECT over five rows gives the same wherever they are cut.
fn five_are_answered_by_blocks(alloc: Global, select: &[u8]) -> Result<bool, NoMemory> {
    let rows = rows_of(alloc, FIVE)?;
    select_is_answered_by_blocks(alloc, select, &rows)
}

/// Queries whose answers have one order.
static QUERIES: [&[u8]; 14] = [
    b"SELECT count(), sum(k), min(k), max(k), uniqExact(k) FROM t",
    b"SELECT count(), sum(k), min(s), max(s), uniqExact(s) FROM t WHERE k < 3",
    b"SELECT min(s), max(s), uniqExact(s) FROM t WHERE k != 3",
    b"SELECT k, count(), min(s), max(s) FROM t GROUP BY k ORDER BY k",
    b"SELECT s, sum(k), uniqExact(k) FROM t GROUP BY s ORDER BY s DESC",
    b"SELECT k % 3 + 1, max(k), count() FROM t GROUP BY k % 3 ORDER BY k % 3",
    b"SELECT k, s, count() FROM t GROUP BY k, s ORDER BY k, s",
    b"SELECT s FROM t GROUP BY s ORDER BY sum(k), s LIMIT 2",
    b"SELECT count(), min(k) FROM t WHERE s < 'b' GROUP BY s ORDER BY count() DESC LIMIT 1",
    b"SELECT k, max(s) FROM t WHERE k < 3 GROUP BY k ORDER BY k",
    b"SELECT uniqExact(k + 1), 5, 'x' FROM t GROUP BY 1",
    b"SELECT sum(k) FROM t LIMIT 0",
    b"SELECT s, k FROM t WHERE k <= 10 ORDER BY k DESC, s LIMIT 3",
    b"SELECT k FROM t ORDER BY k",
];

#[test]
fn rows_in_two_blocks_are_answered_as_all_at_once(rt: HostRuntime) -> Result<(), Fail> {
    for select in &QUERIES {
        assert!(rt;
            five_are_answered_by_blocks(rt.alloc(), select)?,
            "{select:?}"
        );
    }
    Ok(())
}
