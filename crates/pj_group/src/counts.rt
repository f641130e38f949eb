//! Queries that count rows and give nothing else but literals: no row is copied.
ghost use Rattle.std.specs.Prelude.{◌≡◌, ◌++◌, ◌∷◌, [], true, IfOk, length, map};
ghost use Rattle.std.specs.List.{filter, list_all, count_by, All};
ghost use Rattle.pj_value.specs.Values.{kind_of};
ghost use Rattle.pj_expr.specs.Eval.{holds};
ghost use Rattle.pj_expr.specs.Fits.{FitsCond, FitsItem, FitsQuery, aggregates_rows};
ghost use Rattle.pj_answer.specs.Answers.{Answers, first_row};
ghost use Rattle.pj_group.specs.Counts.{counts_alone, only_counts, leaves_row, value_with, counts_of};

use pj_answer::item_kinds;
use pj_block::holds_block;
use pj_expr::{Cond, Item, Query, eval_or_none};
use pj_value::{NoMemory, PushFault, Rows, Value};
use std::alloc::Global;

/// Whether the calls of a query are counts of rows alone, of all its rows together.
pub(crate) fn is_of_counts(query: &Query) -> bool
    ensures { result ≡ only_counts query.now }
{
    all_count(query.items.as_slice()) & query.groups.as_slice().is_empty()
}

/// Whether no item is another call than the count of rows.
fn all_count(items: &[Item]) -> bool
    ensures { result ≡ list_all counts_alone items.now }
{
    items.iter().all(|item| counts(item))
}

/// Whether an item is no other call than the count of rows.
fn counts(item: &Item) -> bool
    ensures { result ≡ counts_alone item.now }
{
    match item {
        Item::Plain(_) => true,
        Item::Agg(call) => call.argument.is_none(),
    }
}

/// The answer of a query that gives counts and literals alone.
pub(crate) fn counted(alloc: Global, query: &Query, rows: &Rows) -> Result<Rows, NoMemory>
    requires fits { FitsQuery rows.now.kinds query.now }
    requires aggregates { aggregates_rows query.now ≡ true }
    requires counts { only_counts query.now ≡ true }
    ensures { IfOk result (λ out. Answers query.now rows.now out) }
{
    let count = kept_len(alloc, &query.filter, rows)?;
    let out = counts_row(alloc, query, rows, count as u64)?;
    Ok(out)
}

/// How many rows satisfy a filter. Where all rows satisfy it, none is tested.
fn kept_len(alloc: Global, cond: &Cond, rows: &Rows) -> Result<usize, NoMemory>
    requires { FitsCond rows.now.kinds cond.now }
    ensures { IfOk result (λ n. n ≡ length (filter (holds cond.now) rows.now.rows)) }
{
    match cond {
        Cond::All => Ok(rows.len()),
        _ => {
            let held = holds_block(alloc, cond, rows)?;
            Ok(true_len(held.as_slice()))
        }
    }
}

/// How many of these are true.
fn true_len(held: &[bool]) -> usize
    ensures { result ≡ count_by (λ b. b) held.now }
{
    held.iter().filter(|one| **one).count()
}

/// The row of this count, unless LIMIT leaves none.
fn counts_row(alloc: Global, query: &Query, rows: &Rows, count: u64) -> Result<Rows, NoMemory>
    requires fits { FitsQuery rows.now.kinds query.now }
    requires aggregates { aggregates_rows query.now ≡ true }
    requires counts { only_counts query.now ≡ true }
    ensures { IfOk result (λ out. out ≡ counts_of query.now rows.now count) }
{
    let items = query.items.as_slice();
    let kinds = item_kinds(alloc, items, rows.kinds())?;
    let out = Rows::new(alloc, kinds.as_slice())?;
    if leaves_row(query.limit) {
        let row = values_of_counts(alloc, items, rows, count)?;
        with_row(out, row.as_slice())
    } else {
        Ok(out)
    }
}

/// Whether LIMIT leaves the first row.
fn leaves_row(limit: Option<u64>) -> bool
    ensures { result ≡ leaves_row limit }
{
    match limit {
        None => true,
        Some(most) => most > 0,
    }
}

/// What the items give where this many rows are kept.
fn values_of_counts(
    alloc: Global,
    items: &[Item],
    rows: &Rows,
    count: u64,
) -> Result<Vec<Value>, NoMemory>
    requires { All (FitsItem rows.now.kinds) items.now }
    ensures { IfOk result (λ vs. vs.items ≡ map (value_with (first_row rows.now.rows) count) items.now) }
{
    let mut row = Vec::with_capacity(alloc, items.len())?;
    for item in items {
        row.push(value_of_count(alloc, item, rows, count)?)?;
    }
    Ok(row)
}

/// What an item gives where this many rows are kept. What is no call is the same for each row.
fn value_of_count(alloc: Global, item: &Item, rows: &Rows, count: u64) -> Result<Value, NoMemory>
    requires { FitsItem rows.now.kinds item.now }
    ensures { IfOk result (λ v. v ≡ value_with (first_row rows.now.rows) count item.now) }
{
    match item {
        Item::Plain(expr) => eval_or_none(expr, rows, 0).to_value(alloc),
        Item::Agg(_) => Ok(Value::Num(count)),
    }
}

/// The rows with one more behind them, which has a value of each kind.
fn with_row(mut rows: Rows, row: &[Value]) -> Result<Rows, NoMemory>
    requires { map kind_of row.now ≡ rows.kinds }
    ensures { IfOk result (λ out. out ≡ record rows { rows = rows.rows ++ row.now ∷ [] }) }
{
    match rows.push(row) {
        Ok(()) => Ok(rows),
        Err(PushFault::NoMemory) => Err(NoMemory),
        Err(PushFault::WrongShape) => unreachable!(),
    }
}
