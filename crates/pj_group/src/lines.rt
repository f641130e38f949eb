//! The lines of an answer, made of columns, arranged by keys and cut.
ghost use Rattle.std.specs.Prelude.{◌≡◌, Some, IfOk, length, map};
ghost use Rattle.std.specs.List.{All, range_with_len};
ghost use Rattle.pj_answer.specs.Rows.{first_of};
ghost use Rattle.pj_group.specs.Indexes.{key_values, is_before};
ghost use Rattle.pj_group.specs.Least.{AreFirst};
ghost use Rattle.pj_group.specs.Lines.{rows_in_columns, keys_in_columns, AreFirstLines};

use crate::indexes::{all_indexes, first_by};
use crate::keys::{Key, lent_keys};
use crate::least::cut_to;
use pj_expr::OrderKey;
use pj_value::{Column, NoMemory, Rows};
use std::alloc::Global;

/// So many rows, whose values are in these columns.
pub(crate) fn rows_of_columns(
    alloc: Global,
    columns: Vec<Column>,
    len: usize,
) -> Result<Rows, NoMemory>
    requires { All (λ c. length c.values ≡ len) columns.items }
    ensures { IfOk result (λ r. r ≡ rows_in_columns columns.items len) }
{
    if columns.as_slice().is_empty() {
        Ok(Rows::of_no_columns(alloc, len))
    } else {
        let rows = Rows::from_columns(alloc, columns)?;
        Ok(rows)
    }
}

/// The first lines in the order of ORDER BY, as many as LIMIT says. The values of the keys are in columns.
pub(crate) fn arranged(
    alloc: Global,
    lines: Rows,
    keys: &[OrderKey],
    columns: &[Column],
    limit: Option<u64>,
) -> Result<Rows, NoMemory>
    requires { length columns.now ≡ length keys.now }
    ensures { IfOk result (λ out. AreFirstLines (is_before (keys_in_columns keys.now columns.now)) limit lines out) }
{
    if keys.is_empty() {
        return Ok(cut_lines(lines, limit));
    }
    let keys = lent_keys(alloc, keys, columns)?;
    let out = sorted_lines(alloc, lines, keys.as_slice(), limit)?;
    Ok(out)
}

/// The first lines in the order of keys.
fn sorted_lines(
    alloc: Global,
    lines: Rows,
    keys: &[Key<'_>],
    limit: Option<u64>,
) -> Result<Rows, NoMemory>
    ensures { IfOk result (λ out. AreFirstLines (is_before (map key_values keys.now)) limit lines out) }
{
    let indexes = all_indexes(alloc, lines.len())?;
    let first = first_by(alloc, indexes, keys, limit)?;
    let out = lines.gather(first.as_slice())?;
    Ok(out)
}

/// The first lines, as many as LIMIT says.
fn cut_lines(mut lines: Rows, limit: Option<u64>) -> Rows
    ensures { result ≡ record lines { rows = first_of limit lines.rows } }
{
    match limit {
        None => lines,
        Some(most) => {
            lines.truncate(most as usize);
            lines
        }
    }
}

/// The indexes of the first of so many lines in the order of ORDER BY, as many as asked for. The values of the
/// keys are in columns.
pub(crate) fn first_lines(
    alloc: Global,
    keys: &[OrderKey],
    columns: &[Column],
    len: usize,
    most: u64,
) -> Result<Vec<usize>, NoMemory>
    requires { length columns.now ≡ length keys.now }
    ensures { IfOk result (λ ps. AreFirst (is_before (keys_in_columns keys.now columns.now)) (Some most)
        (range_with_len 0 len) ps.items) }
{
    let indexes = all_indexes(alloc, len)?;
    if keys.is_empty() {
        return Ok(cut_to(indexes, Some(most)));
    }
    let keys = lent_keys(alloc, keys, columns)?;
    let first = first_by(alloc, indexes, keys.as_slice(), Some(most))?;
    Ok(first)
}
