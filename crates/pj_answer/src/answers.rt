//! Right answers of a query, as the definition has them: the item_rows of all groups, sorted whole and then
//! cut.
ghost use Rattle.std.specs.Prelude.{◌≡◌, ◌∷◌, [], IfOk, map};
ghost use Rattle.std.specs.List.{AllByRecursion};
ghost use Rattle.pj_expr.specs.Fits.{FitsCond, FitsExpr, FitsQuery};
ghost use Rattle.pj_answer.specs.Answers.{Answers, groups_of};
ghost use Rattle.pj_answer.specs.Rows.{of_kinds, kept_groups};

use crate::groups::groups_by;
use crate::order::{arranged, cut_to};
use crate::rows::{item_rows, items_of_keys};
use pj_block::kept;
use pj_expr::{Query, aggregates};
use pj_value::{NoMemory, Rows};
use std::alloc::Global;

/// The rows of a right answer of a query over rows. Rows that ORDER BY doesn't tell apart stand in the order
/// of the rows, those of groups in the order of the groups' last rows. It is the definition as a program, for
/// tests and comparisons: each row that is kept is copied several times over, and GROUP BY and `uniqExact`
/// take time quadratic in the rows.
pub fn answer(alloc: Global, query: &Query, rows: &Rows) -> Result<Rows, NoMemory>
    requires fits { FitsQuery rows.now.kinds query.now }
    ensures { IfOk result (λ out. Answers query.now rows.now out) }
{
    let groups = kept_groups(alloc, query, rows)?;
    let kinds = rows.kinds();
    let output = item_rows(alloc, query.items.as_slice(), kinds, groups.as_slice())?;
    let keys = items_of_keys(alloc, query.order.as_slice())?;
    let order = item_rows(alloc, keys.as_slice(), kinds, groups.as_slice())?;
    let arrangement = arranged(alloc, query.order.as_slice(), &order)?;
    let first = cut_to(arrangement, query.limit);
    let out = output.gather(first.as_slice())?;
    Ok(out)
}

/// The groups of the rows that satisfy the query's filter.
fn kept_groups(alloc: Global, query: &Query, rows: &Rows) -> Result<Vec<Rows>, NoMemory>
    requires fits { FitsCond rows.now.kinds query.now.filter }
    requires groups { AllByRecursion (FitsExpr rows.now.kinds) query.now.groups }
    ensures { IfOk result (λ gs. gs.items ≡ kept_groups query.now rows.now) }
{
    let indexes = kept(alloc, &query.filter, rows)?;
    let held = rows.gather(indexes.as_slice())?;
    let groups = groups_of_rows(alloc, query, &held)?;
    Ok(groups)
}

/// The groups of the rows that are kept.
fn groups_of_rows(alloc: Global, query: &Query, held: &Rows) -> Result<Vec<Rows>, NoMemory>
    requires { AllByRecursion (FitsExpr held.now.kinds) query.now.groups }
    ensures { IfOk result (λ g. g.items ≡ map (of_kinds held.now.kinds) (groups_of query.now held.now.rows)) }
{
    let exprs = query.groups.as_slice();
    if exprs.is_empty() {
        ungrouped(alloc, query, held)
    } else {
        groups_by(alloc, exprs, held)
    }
}

/// The groups without GROUP BY: all rows in one where the query aggregates, and else each row by itself.
fn ungrouped(alloc: Global, query: &Query, held: &Rows) -> Result<Vec<Rows>, NoMemory>
    requires { query.now.groups ≡ [] }
    ensures { IfOk result (λ g. g.items ≡ map (of_kinds held.now.kinds) (groups_of query.now held.now.rows)) }
{
    if aggregates(query) {
        one_group(alloc, held)
    } else {
        row_groups(alloc, held)
    }
}

/// All rows in one group.
fn one_group(alloc: Global, held: &Rows) -> Result<Vec<Rows>, NoMemory>
    ensures { IfOk result (λ gs. gs.items ≡ held.now ∷ []) }
{
    let mut groups = Vec::new(alloc);
    groups.push(held.duplicate()?)?;
    Ok(groups)
}

/// Each row in a group by itself.
fn row_groups(alloc: Global, held: &Rows) -> Result<Vec<Rows>, NoMemory>
    ensures { IfOk result (λ gs. gs.items ≡ map (λ row. of_kinds held.now.kinds (row ∷ [])) held.now.rows) }
{
    let mut groups = Vec::with_capacity(alloc, held.len())?;
    for at in 0..held.len() {
        groups.push(held.gather(&[at])?)?;
    }
    Ok(groups)
}
