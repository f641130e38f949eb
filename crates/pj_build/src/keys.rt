//! The index of sorted rows: the key of the first row of each granule, and the last key of all.
ghost use Rattle.std.specs.Prelude.{◌≡◌, ◌-◌, ◌<◌, ◌≤◌, [], length, map, slice_index_or, IfOk};
ghost use Rattle.std.specs.List.{All};
ghost use Rattle.pj_value.specs.Order.{key_of};
ghost use Rattle.pj_part.specs.Formed.{kinds_at};
ghost use Rattle.pj_part.specs.Agreement.{index_of};
ghost use Rattle.pj_build.specs.Keys.{granule_starts, column_at};

use pj_index::KeyMarks;
use pj_value::{Column, List, NoMemory, Rows, Value};
use std::alloc::Global;

/// What an index keeps of rows whose keys are their values in these columns, at least one.
pub(crate) fn key_marks(
    alloc: Global,
    rows: &Rows,
    key: &[usize],
    granularity: u32,
) -> Result<KeyMarks, NoMemory>
    requires keyed { 1 ≤ length key.now }
    requires within { All (λ column. column < length rows.now.kinds) key.now }
    requires some { 1 ≤ granularity }
    ensures { IfOk result (λ marks. marks
        ≡ index_of granularity (kinds_at rows.now.kinds key.now) (map (key_of key.now) rows.now.rows)) }
{
    let firsts = first_keys(alloc, rows, key, granularity)?;
    let last = last_key(alloc, rows, key)?;
    Ok(KeyMarks { firsts, last })
}

/// The key of the first row of each granule.
fn first_keys(alloc: Global, rows: &Rows, key: &[usize], granularity: u32) -> Result<Rows, NoMemory>
    requires keyed { 1 ≤ length key.now }
    requires within { All (λ column. column < length rows.now.kinds) key.now }
    requires some { 1 ≤ granularity }
    ensures { IfOk result (λ firsts. firsts
        ≡ (index_of granularity (kinds_at rows.now.kinds key.now)
        (map (key_of key.now) rows.now.rows)).firsts) }
{
    let starts = starts_of(alloc, rows.len(), granularity)?;
    let columns = columns_at(alloc, rows, key, starts.as_slice())?;
    Rows::from_columns(alloc, columns)
}

/// The index of the first row of each granule of so many rows.
fn starts_of(alloc: Global, rows: usize, granularity: u32) -> Result<Vec<usize>, NoMemory>
    requires { 1 ≤ granularity }
    ensures starts { IfOk result (λ starts. starts.items ≡ granule_starts granularity rows) }
    ensures within { IfOk result (λ starts. All (λ at. at < rows) starts.items) }
{
    let step = granularity as usize;
    let count = rows.div_ceil(step);
    let mut starts = Vec::with_capacity(alloc, count)?;
    'granules: for at in 0..count {
        starts.push(at * step)?;
    }
    Ok(starts)
}

/// The values of the rows at some indexes, in each of these columns.
fn columns_at(
    alloc: Global,
    rows: &Rows,
    columns: &[usize],
    indexes: &[usize],
) -> Result<Vec<Column>, NoMemory>
    requires columns { All (λ column. column < length rows.now.kinds) columns.now }
    requires rows { All (λ at. at < length rows.now.rows) indexes.now }
    ensures { IfOk result (λ found. found.items ≡ map (column_at rows.now indexes.now) columns.now) }
{
    let mut found = Vec::with_capacity(alloc, columns.len())?;
    'columns: for column in columns {
        found.push(values_in(alloc, rows, *column, indexes)?)?;
    }
    Ok(found)
}

/// The values of the rows at some indexes, in this column.
fn values_in(
    alloc: Global,
    rows: &Rows,
    column: usize,
    indexes: &[usize],
) -> Result<Column, NoMemory>
    requires column { column < length rows.now.kinds }
    requires rows { All (λ at. at < length rows.now.rows) indexes.now }
    ensures { IfOk result (λ found. found ≡ column_at rows.now indexes.now column) }
{
    let found = rows.column(column).gather(alloc, indexes)?;
    Ok(found)
}

/// The key of the last row, which is empty where there is no row.
fn last_key(alloc: Global, rows: &Rows, key: &[usize]) -> Result<List<Value>, NoMemory>
    requires { All (λ column. column < length rows.now.kinds) key.now }
    ensures { IfOk result (λ last. last
        ≡ slice_index_or (map (key_of key.now) rows.now.rows) (length rows.now.rows - 1) []) }
{
    match rows.len().checked_sub(1) {
        Some(at) => key_at(alloc, rows, key, at),
        None => Ok(List::from_vec(Vec::new(alloc))),
    }
}

/// The key of a row.
fn key_at(alloc: Global, rows: &Rows, key: &[usize], at: usize) -> Result<List<Value>, NoMemory>
    requires within { All (λ column. column < length rows.now.kinds) key.now }
    requires there { at < length rows.now.rows }
    ensures { IfOk result (λ values. values ≡ key_of key.now (slice_index_or rows.now.rows at [])) }
{
    let mut values = Vec::with_capacity(alloc, key.len())?;
    'columns: for column in key {
        values.push(rows.cell(at, *column).to_value(alloc)?)?;
    }
    Ok(List::from_vec(values))
}
