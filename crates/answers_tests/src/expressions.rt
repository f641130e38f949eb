//! Expressions and conditions, row by row and as blocks.
use crate::given::{THREE, query_of, rows_of};
use pj_block::{eval_block, holds_block, kept};
use pj_expr::{Cond, Expr, Item, Query, eval_row, fits_cond, fits_expr, holds_row};
use pj_value::{Cell, NoMemory, Rows};
use std::alloc::Global;
use std::test::Fail;

/// The first item of a query, which is no call.
fn first_item(query: &Query) -> Option<&Expr> {
    match query.items.as_slice().first() {
        Some(Item::Plain(expr)) => Some(expr),
        _ => None,
    }
}

/// Whether an expression that fits the rows gives these numbers for them, row by row.
fn rows_give(expr: &Expr, rows: &Rows, numbers: &[u64]) -> bool {
    if !fits_expr(expr, rows.kinds()) || rows.len() != numbers.len() {
        return false;
    }
    for at in 0..rows.len() {
        match eval_row(expr, rows, at) {
            Cell::Num(number) if number == numbers[at] => {}
            _ => return false,
        }
    }
    true
}

/// The same of the rows as a block.
fn block_gives(alloc: Global, expr: &Expr, rows: &Rows, numbers: &[u64]) -> Result<bool, NoMemory> {
    if !fits_expr(expr, rows.kinds()) {
        return Ok(false);
    }
    let block = eval_block(alloc, expr, rows)?;
    match block.numbers() {
        Some(found) => Ok(found == numbers),
        None => Ok(false),
    }
}

/// Whether an expression gives these numbers in both ways.
fn gives(alloc: Global, expr: &Expr, rows: &Rows, numbers: &[u64]) -> Result<bool, NoMemory> {
    Ok(rows_give(expr, rows, numbers) && block_gives(alloc, expr, rows, numbers)?)
}

/// Whether the copy of an expression does.
fn copy_gives(alloc: Global, expr: &Expr, rows: &Rows, numbers: &[u64]) -> Result<bool, NoMemory> {
    let copy = expr.duplicate(alloc)?;
    gives(alloc, &copy, rows, numbers)
}

/// Whether the first item of a query and its copy give these numbers.
fn first_gives(
    alloc: Global,
    query: &Query,
    rows: &Rows,
    numbers: &[u64],
) -> Result<bool, NoMemory> {
    match first_item(query) {
        Some(expr) => {
            Ok(gives(alloc, expr, rows, numbers)? && copy_gives(alloc, expr, rows, numbers)?)
        }
        None => Ok(false),
    }
}

/// Whether the item of a SELECT gives these numbers for these rows.
fn select_gives(
    alloc: Global,
    select: &[u8],
    rows: &Rows,
    numbers: &[u64],
) -> Result<bool, NoMemory> {
    let query = query_of(alloc, select)?;
    first_gives(alloc, &query, rows, numbers)
}

/// Whether it does for the three rows.
fn item_gives(alloc: Global, select: &[u8], numbers: &[u64]) -> Result<bool, NoMemory> {
    let rows = rows_of(alloc, THREE)?;
    select_gives(alloc, select, &rows, numbers)
}

/// Items, and what they give for the numbers 7, 2^64 - 1 and 10.
static ARITHMETIC: [(&[u8], &[u64]); 8] = [
    (b"SELECT k + 1 FROM t", &[8, 0, 11]),
    (b"SELECT 3 * k FROM t", &[21, 18446744073709551613, 30]),
    (b"SELECT 2 + 3 FROM t", &[5, 5, 5]),
    // Steps that take over the memory of others.
    (
        b"SELECT k * 2 + k * k FROM t",
        &[63, 18446744073709551615, 120],
    ),
    (b"SELECT intDiv(k, 4) FROM t", &[1, 4611686018427387903, 2]),
    (b"SELECT k * 3 % 4 FROM t", &[1, 1, 2]),
    (b"SELECT 9 % 4 FROM t", &[1, 1, 1]),
    (b"SELECT k FROM t", &[7, 18446744073709551615, 10]),
];

#[test]
fn arithmetic_is_of_64_bits(rt: HostRuntime) -> Result<(), Fail> {
    for (select, numbers) in &ARITHMETIC {
        assert!(rt; item_gives(rt.alloc(), select, numbers)?, "{select:?}");
    }
    Ok(())
}

/// Whether an expression that fits the rows gives this text for the last of three, as a block.
fn block_gives_text(
    alloc: Global,
    expr: &Expr,
    rows: &Rows,
    bytes: &[u8],
) -> Result<bool, NoMemory> {
    if !fits_expr(expr, rows.kinds()) {
        return Ok(false);
    }
    let block = eval_block(alloc, expr, rows)?;
    match block.texts() {
        Some(texts) => Ok(texts.len() == 3 && texts[2].as_slice() == bytes),
        None => Ok(false),
    }
}

/// Whether it does by that row alone.
fn row_gives_text(expr: &Expr, rows: &Rows, bytes: &[u8]) -> bool {
    if !fits_expr(expr, rows.kinds()) || rows.len() != 3 {
        return false;
    }
    match eval_row(expr, rows, 2) {
        Cell::Num(_) => false,
        Cell::Text(found) => found.as_slice() == bytes,
    }
}

/// Whether the first item of a query gives this text in both ways.
fn first_gives_text(
    alloc: Global,
    query: &Query,
    rows: &Rows,
    bytes: &[u8],
) -> Result<bool, NoMemory> {
    match first_item(query) {
        Some(expr) => {
            Ok(row_gives_text(expr, rows, bytes) && block_gives_text(alloc, expr, rows, bytes)?)
        }
        None => Ok(false),
    }
}

/// Whether the item of a SELECT gives this text for the last of these rows.
fn select_gives_text(
    alloc: Global,
    select: &[u8],
    rows: &Rows,
    bytes: &[u8],
) -> Result<bool, NoMemory> {
    let query = query_of(alloc, select)?;
    first_gives_text(alloc, &query, rows, bytes)
}

/// Whether it does for the last of the three rows.
fn item_gives_text(alloc: Global, select: &[u8], bytes: &[u8]) -> Result<bool, NoMemory> {
    let rows = rows_of(alloc, THREE)?;
    select_gives_text(alloc, select, &rows, bytes)
}

/// Items of texts, and what they give for the text 'ab\xff'.
static TEXTS: [(&[u8], &[u8]); 2] = [
    (b"SELECT s FROM t", b"ab\xff"),
    (b"SELECT 'x' FROM t", b"x"),
];

#[test]
fn texts_are_lent_and_copied(rt: HostRuntime) -> Result<(), Fail> {
    for (select, bytes) in &TEXTS {
        assert!(rt; item_gives_text(rt.alloc(), select, bytes)?, "{select:?}");
    }
    Ok(())
}

/// Whether these rows hold a condition row by row.
fn hold(cond: &Cond, rows: &Rows, held: &[bool]) -> bool {
    if !fits_cond(cond, rows.kinds()) || rows.len() != held.len() {
        return false;
    }
    for at in 0..rows.len() {
        if holds_row(cond, rows, at) != held[at] {
            return false;
        }
    }
    true
}

/// Whether these rows hold a condition as a block.
fn block_holds(alloc: Global, cond: &Cond, rows: &Rows, held: &[bool]) -> Result<bool, NoMemory> {
    if !fits_cond(cond, rows.kinds()) {
        return Ok(false);
    }
    let block = holds_block(alloc, cond, rows)?;
    Ok(block.as_slice() == held)
}

/// Whether the rows at these indexes are the ones that a condition keeps.
fn are_kept(alloc: Global, cond: &Cond, rows: &Rows, indexes: &[usize]) -> Result<bool, NoMemory> {
    if !fits_cond(cond, rows.kinds()) {
        return Ok(false);
    }
    let kept = kept(alloc, cond, rows)?;
    Ok(kept.as_slice() == indexes)
}

/// Whether these rows hold a condition, row by row and as a block, and are kept by it.
fn keeps(
    alloc: Global,
    cond: &Cond,
    rows: &Rows,
    held: &[bool],
    indexes: &[usize],
) -> Result<bool, NoMemory> {
    Ok(
        hold(cond, rows, held)
            && block_holds(alloc, cond, rows, held)?
            && are_kept(alloc, cond, rows, indexes)?,
    )
}

/// The same of the copy of a condition.
fn copy_keeps(
    alloc: Global,
    cond: &Cond,
    rows: &Rows,
    held: &[bool],
    indexes: &[usize],
) -> Result<bool, NoMemory> {
    let copy = cond.duplicate(alloc)?;
    keeps(alloc, &copy, rows, held, indexes)
}

/// Whether a condition and its copy keep these rows.
fn both_keep(
    alloc: Global,
    cond: &Cond,
    rows: &Rows,
    held: &[bool],
    indexes: &[usize],
) -> Result<bool, NoMemory> {
    Ok(keeps(alloc, cond, rows, held, indexes)? && copy_keeps(alloc, cond, rows, held, indexes)?)
}

/// Whether the condition of a SELECT keeps these rows.
fn select_keeps(
    alloc: Global,
    select: &[u8],
    rows: &Rows,
    held: &[bool],
    indexes: &[usize],
) -> Result<bool, NoMemory> {
    let query = query_of(alloc, select)?;
    both_keep(alloc, &query.filter, rows, held, indexes)
}

/// Whether it keeps these of the three rows.
fn filter_keeps(
    alloc: Global,
    select: &[u8],
    held: &[bool],
    indexes: &[usize],
) -> Result<bool, NoMemory> {
    let rows = rows_of(alloc, THREE)?;
    select_keeps(alloc, select, &rows, held, indexes)
}

/// Conditions, which of the rows (7, 'a'), (2^64 - 1, '') and (10, 'ab\xff') hold them, and the indexes of these.
static CONDITIONS: [(&[u8], &[bool], &[usize]); 16] = [
    (b"SELECT k FROM t WHERE k = 10", &[false, false, true], &[2]),
    (
        b"SELECT k FROM t WHERE k != 10",
        &[true, true, false],
        &[0, 1],
    ),
    (b"SELECT k FROM t WHERE k < 10", &[true, false, false], &[0]),
    (
        b"SELECT k FROM t WHERE k <= 10",
        &[true, false, true],
        &[0, 2],
    ),
    (b"SELECT k FROM t WHERE k > 10", &[false, true, false], &[1]),
    (
        b"SELECT k FROM t WHERE k >= 10",
        &[false, true, true],
        &[1, 2],
    ),
    (
        b"SELECT k FROM t WHERE 8 < k",
        &[false, true, true],
        &[1, 2],
    ),
    (
        b"SELECT k FROM t WHERE 8 < 9",
        &[true, true, true],
        &[0, 1, 2],
    ),
    (
        b"SELECT k FROM t WHERE s <= 'a'",
        &[true, true, false],
        &[0, 1],
    ),
    (
        b"SELECT k FROM t WHERE s > 'ab'",
        &[false, false, true],
        &[2],
    ),
    (
        b"SELECT k FROM t WHERE s = s",
        &[true, true, true],
        &[0, 1, 2],
    ),
    (
        b"SELECT k FROM t WHERE k > 7 AND k < 11",
        &[false, false, true],
        &[2],
    ),
    (
        b"SELECT k FROM t WHERE k = 7 OR k = 10",
        &[true, false, true],
        &[0, 2],
    ),
    (
        b"SELECT k FROM t WHERE NOT k = 7",
        &[false, true, true],
        &[1, 2],
    ),
    (
        b"SELECT k FROM t WHERE NOT (k < 8 OR k > 9)",
        &[false, false, false],
        &[],
    ),
    (b"SELECT k FROM t", &[true, true, true], &[0, 1, 2]),
];

#[test]
fn conditions_hold_by_size_bytes_and_words(rt: HostRuntime) -> Result<(), Fail> {
    for (select, held, indexes) in &CONDITIONS {
        assert!(rt;
            filter_keeps(rt.alloc(), select, held, indexes)?,
            "{select:?}"
        );
    }
    Ok(())
}
