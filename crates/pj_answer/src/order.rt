//! Rows in the order that ORDER BY asks for.
ghost use Rattle.std.specs.Prelude.{◌≡◌, IfOk, length};
ghost use Rattle.std.specs.List.{range_with_len};
ghost use Rattle.std.specs.List.Sorted.{IsPermutation, IsSortedBy};
ghost use Rattle.pj_value.specs.Values.{value_of};
ghost use Rattle.pj_value.specs.Rows.{value_at};
ghost use Rattle.pj_answer.specs.Answers.{turned};
ghost use Rattle.pj_answer.specs.Rows.{indexes_cmp, is_before, first_of};

use pj_expr::OrderKey;
use pj_value::{Cell, NoMemory, Rows, cell_cmp};
use std::alloc::Global;
use std::cmp::Ordering;

/// The indexes of the order rows, sorted.
pub(crate) fn arranged(
    alloc: Global,
    keys: &[OrderKey],
    rows: &Rows,
) -> Result<Vec<usize>, NoMemory>
    ensures each_once { IfOk result (λ ps. IsPermutation (range_with_len 0 (length rows.now.rows)) ps.items) }
    ensures sorted { IfOk result (λ ps. IsSortedBy (is_before keys.now rows.now.rows) ps.items) }
{
    let mut indexes = all_indexes(alloc, rows.len())?;
    indexes.sort_by(|a, b| compare(keys, rows, *a, *b))?;
    Ok(indexes)
}

/// The first indexes, as many as LIMIT says.
pub(crate) fn cut_to(mut indexes: Vec<usize>, limit: Option<u64>) -> Vec<usize>
    ensures { result.items ≡ first_of limit indexes.items }
{
    match limit {
        None => indexes,
        Some(most) => {
            indexes.truncate(most as usize);
            indexes
        }
    }
}

/// All indexes of rows.
fn all_indexes(alloc: Global, len: usize) -> Result<Vec<usize>, NoMemory>
    ensures { IfOk result (λ ps. ps.items ≡ range_with_len 0 len) }
{
    let mut indexes = Vec::with_capacity(alloc, len)?;
    for at in 0..len {
        indexes.push(at)?;
    }
    Ok(indexes)
}

/// How the order rows at two indexes stand to each other: the first key in which they differ decides.
fn compare(keys: &[OrderKey], rows: &Rows, a: usize, b: usize) -> Ordering
    ensures { result ≡ indexes_cmp keys.now rows.now.rows a b }
{
    for (at, key) in keys.iter().enumerate() {
        let order = cell_cmp(cell_or_zero(rows, a, at), cell_or_zero(rows, b, at));
        match turn(key.descending, order) {
            Ordering::Equal => {}
            other => return other,
        }
    }
    Ordering::Equal
}

/// The order, turned round for DESC.
fn turn(descending: bool, order: Ordering) -> Ordering
    ensures { result ≡ turned descending order }
{
    if descending { order.reverse() } else { order }
}

/// The value of a row in a column, and the number 0 where there is none.
fn cell_or_zero(rows: &Rows, row: usize, column: usize) -> Cell<'_>
    ensures { value_of result ≡ value_at rows.now.rows row column }
{
    if row < rows.len() && column < rows.kinds().len() {
        rows.cell(row, column)
    } else {
        Cell::Num(0)
    }
}
