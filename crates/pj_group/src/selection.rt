//! The answer of a query, by the quickest way that its form allows.
ghost use Rattle.std.specs.Prelude.{◌≡◌, ◌<◌, false, true, IfOk, length};
ghost use Rattle.pj_answer.specs.Answers.{Answers};
ghost use Rattle.pj_expr.specs.Fits.{FitsQuery, aggregates_rows};

use crate::counts::{counted, is_of_counts};
use crate::groups::Groups;
use crate::indexes::{first_indexes, indexes_kept};
use crate::items::outputs;
use pj_expr::{Query, aggregates};
use pj_value::{NoMemory, Rows};
use std::alloc::Global;

/// The rows of a right answer of a query over rows. It is quicker than `pj_answer::answer`, which has the same
/// contract.
///
/// A query that doesn't aggregate takes time linear in the rows, and with ORDER BY about n log n comparisons
/// for the n rows that it keeps. With ORDER BY and LIMIT k it takes about n comparisons, and sorts of the few
/// rows that come in between: at most about n log k. Of the columns those alone are copied that an item uses,
/// and of these the values of the rows of the answer. A query of `count()` and literals alone copies no row.
/// Any other query that aggregates takes a pass over the rows for each operator and each call, a look-up of
/// each row's key, and about g log g comparisons for its g groups where it has ORDER BY.
pub fn select(alloc: Global, query: &Query, rows: &Rows) -> Result<Rows, NoMemory>
    requires fits { FitsQuery rows.now.kinds query.now }
    ensures { IfOk result (λ out. Answers query.now rows.now out) }
{
    if aggregates(query) {
        aggregated(alloc, query, rows)
    } else {
        separate(alloc, query, rows)
    }
}

/// The answer of a query that aggregates.
fn aggregated(alloc: Global, query: &Query, rows: &Rows) -> Result<Rows, NoMemory>
    requires fits { FitsQuery rows.now.kinds query.now }
    requires aggregates { aggregates_rows query.now ≡ true }
    ensures { IfOk result (λ out. Answers query.now rows.now out) }
{
    if is_of_counts(query) {
        counted(alloc, query, rows)
    } else {
        grouped(alloc, query, rows)
    }
}

/// The answer of a query that gives a row for each row by itself.
fn separate(alloc: Global, query: &Query, rows: &Rows) -> Result<Rows, NoMemory>
    requires fits { FitsQuery rows.now.kinds query.now }
    requires separate { aggregates_rows query.now ≡ false }
    ensures { IfOk result (λ out. Answers query.now rows.now out) }
{
    if query.items.as_slice().is_empty() {
        grouped(alloc, query, rows)
    } else {
        arranged_rows(alloc, query, rows)
    }
}

/// The answer of any query, by groups.
fn grouped(alloc: Global, query: &Query, rows: &Rows) -> Result<Rows, NoMemory>
    requires { FitsQuery rows.now.kinds query.now }
    ensures { IfOk result (λ out. Answers query.now rows.now out) }
{
    let groups = Groups::new(alloc, query, rows.kinds())?;
    let groups = groups.add_rows(query, rows)?;
    let out = groups.answer(query)?;
    Ok(out)
}

/// The answer of a query that gives a row for each row by itself, and has items. Rows are chosen and arranged
/// by their indexes before any value is copied.
fn arranged_rows(alloc: Global, query: &Query, rows: &Rows) -> Result<Rows, NoMemory>
    requires fits { FitsQuery rows.now.kinds query.now }
    requires separate { aggregates_rows query.now ≡ false }
    requires some { 0 < length query.now.items }
    ensures { IfOk result (λ out. Answers query.now rows.now out) }
{
    let kept = indexes_kept(alloc, &query.filter, rows)?;
    let first = first_indexes(alloc, query.order.as_slice(), rows, kept, query.limit)?;
    let out = outputs(alloc, query.items.as_slice(), rows, first.as_slice())?;
    Ok(out)
}
