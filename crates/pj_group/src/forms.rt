//! How rows are divided into groups.
ghost use Rattle.std.specs.Prelude.{◌≡◌, [], List, Some, IfOk, IfSome, length, map};
ghost use Rattle.std.specs.List.{All};
ghost use Rattle.pj_expr.specs.Fits.{FitsExpr};
ghost use Rattle.pj_value.specs.Rows.{rows_at};
ghost use Rattle.pj_answer.specs.Answers.{Row, key_of};
ghost use Rattle.pj_group.specs.Dense.{IsKept, dense_column};
ghost use Rattle.pj_group.specs.Forms.{Regroups};
ghost use Rattle.pj_group.specs.Indexes.{item_column, chosen};
ghost use Rattle.pj_group.specs.Numbers.{AreNumbers};
ghost use Rattle.pj_group.specs.Standing.{HoldsGroups, groups_of_none};
ghost use Rattle.pj_group.specs.declared.forms.Form.TheVariants.{Each};

use crate::dense::{Dense, Kept, column_for};
use crate::keyed::Key;
use crate::numbers::{Numbers, numbered, of_each, of_one};
use indexmap::IndexSet;
use pj_expr::{Expr, Item, Query, aggregates};
use pj_value::{NoMemory, Rows};
use std::alloc::Global;

/// How rows are divided into groups.
#[derive(Drop)]
pub(crate) enum Form {
    /// Each row by itself: the query doesn't aggregate.
    Each,
    /// All rows in one.
    One,
    /// By their values of GROUP BY; the keys are numbered in the order of their first rows.
    By(IndexSet<Key>),
}

/// How the rows of a query are divided, with no rows so far.
pub(crate) fn form_of(alloc: Global, query: &Query) -> Form
    ensures { HoldsGroups query.now [] result (groups_of_none result) }
{
    if !aggregates(query) {
        Form::Each
    } else if query.groups.as_slice().is_empty() {
        Form::One
    } else {
        Form::By(IndexSet::new(alloc))
    }
}

/// How many groups there are of no rows.
pub(crate) fn len_of_none(form: &Form) -> usize
    ensures { result ≡ length (groups_of_none form.now) }
{
    match form {
        Form::Each => 0,
        Form::One => 1,
        Form::By(_) => 0,
    }
}

/// LIMIT of a query, where each row is a group by itself.
pub(crate) fn limit_of(form: &Form, query: &Query) -> Option<u64>
    ensures { IfSome result (λ most. (form.now ≡ Each) × (query.now.limit ≡ Some most)) }
{
    match form {
        Form::Each => query.limit,
        _ => None,
    }
}

/// Which groups the rows are of that are kept. Groups that they open are added to the form.
pub(crate) fn numbers_of(
    alloc: Global,
    form: &mut Form,
    query: &Query,
    rows: &Rows,
    kept: &Kept,
) -> Result<Numbers, NoMemory>
    requires fits { All (FitsExpr rows.now.kinds) query.now.groups }
    requires kept { IsKept rows.now.rows kept.now }
    ensures { IfOk result (λ n. (before : List Row) (old : List (List Row))
        → HoldsGroups query.now before form.old old
        → Regroups query.now n before (rows_at rows.now.rows kept.now.indexes.items) old form.new) }
{
    let len = kept.indexes.len();
    match form {
        Form::Each => {
            let numbers = of_each(alloc, len)?;
            Ok(numbers)
        }
        Form::One => {
            let numbers = of_one(alloc, len)?;
            Ok(numbers)
        }
        Form::By(keys) => {
            let numbers = numbers_by(alloc, keys, query.groups.as_slice(), rows, kept)?;
            Ok(numbers)
        }
    }
}

/// Which groups the rows are of by their values of GROUP BY.
fn numbers_by(
    alloc: Global,
    keys: &mut IndexSet<Key>,
    exprs: &[Expr],
    rows: &Rows,
    kept: &Kept,
) -> Result<Numbers, NoMemory>
    requires fits { All (FitsExpr rows.now.kinds) exprs.now }
    requires kept { IsKept rows.now.rows kept.now }
    ensures { IfOk result (λ n. AreNumbers keys.old.keys
        (map (key_of exprs.now) (rows_at rows.now.rows kept.now.indexes.items)) keys.new.keys n) }
{
    let columns = key_columns(alloc, exprs, rows, kept)?;
    let numbers = numbered(alloc, keys, columns.as_slice(), kept.indexes.len())?;
    Ok(numbers)
}

/// The values of GROUP BY for the rows that are kept.
fn key_columns<'a>(
    alloc: Global,
    exprs: &[Expr],
    rows: &'a Rows,
    kept: &Kept,
) -> Result<Vec<Dense<'a>>, NoMemory>
    requires fits { All (FitsExpr rows.now.kinds) exprs.now }
    requires kept { IsKept rows.now.rows kept.now }
    ensures { IfOk result (λ ds. map dense_column ds.items
        ≡ map (λ e. item_column (chosen rows.now kept.now.indexes.items) (Item.Plain e)) exprs.now) }
{
    let mut columns = Vec::with_capacity(alloc, exprs.len())?;
    for expr in exprs {
        columns.push(column_for(alloc, expr, rows, kept)?)?;
    }
    Ok(columns)
}
