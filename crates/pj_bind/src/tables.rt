//! The table that a CREATE makes.
ghost use Rattle.std.specs.Prelude.{◌≡◌, IfOk};
ghost use Rattle.pj_bind.specs.Tables.{column_of, columns_of, key_of, granularity_of, mode_of, mode_named};
ghost use Rattle.pj_bind.specs.Tables.{table_of as table_made};

use crate::meaning::column_number;
use pj_expr::{ColumnDef, LightMode, Table};
use pj_grammar::types::{ModeWord, TableWord, TreeColumn};
use pj_value::{List, NoMemory, Text};
use std::alloc::Global;

/// The table of this name, with these columns, key and settings. Of a setting that is named twice the last
/// one holds.
pub(crate) fn table_of(
    alloc: Global,
    name: &Text,
    columns: &[TreeColumn],
    key: &[Text],
    settings: &[TableWord],
) -> Result<Table, NoMemory>
    ensures { IfOk result
        (λ table. table ≡ table_made name.now columns.now key.now settings.now) }
{
    let name = name.duplicate(alloc)?;
    let columns = columns_of(alloc, columns)?;
    let key = key_of(alloc, columns.as_slice(), key)?;
    Ok(Table {
        name,
        columns: List::from_vec(columns),
        key: List::from_vec(key),
        granularity: granularity_of(settings),
        mode: mode_of(settings),
    })
}

/// The columns that the columns of a CREATE make.
pub(crate) fn columns_of(alloc: Global, columns: &[TreeColumn]) -> Result<Vec<ColumnDef>, NoMemory>
    ensures { IfOk result (λ defs. defs.items ≡ columns_of columns.now) }
{
    let mut defs = Vec::with_capacity(alloc, columns.len())?;
    'columns: for column in columns {
        defs.push(column_of(alloc, column)?)?;
    }
    Ok(defs)
}

fn column_of(alloc: Global, column: &TreeColumn) -> Result<ColumnDef, NoMemory>
    ensures { IfOk result (λ def. def ≡ column_of column.now) }
{
    let name = column.name.duplicate(alloc)?;
    Ok(ColumnDef {
        name,
        kind: column.kind,
    })
}

/// The numbers of the key's columns, and 0 for a name that is none.
fn key_of(alloc: Global, columns: &[ColumnDef], key: &[Text]) -> Result<Vec<usize>, NoMemory>
    ensures { IfOk result (λ numbers. numbers.items ≡ key_of columns.now key.now) }
{
    let mut numbers = Vec::with_capacity(alloc, key.len())?;
    'names: for name in key {
        numbers.push(column_number(columns, name).unwrap_or(0))?;
    }
    Ok(numbers)
}

/// The last granularity that is set, 8,192 rows by default.
fn granularity_of(settings: &[TableWord]) -> u32
    ensures { result ≡ granularity_of settings.now }
{
    let mut rows = 8192;
    'settings: for setting in settings {
        match setting {
            TableWord::Granularity(set) => rows = *set,
            TableWord::Mode(_) => {}
        }
    }
    rows
}

/// The last mode that is set, `throw` by default.
fn mode_of(settings: &[TableWord]) -> LightMode
    ensures { result ≡ mode_of settings.now }
{
    let mut mode = LightMode::Throw;
    'settings: for setting in settings {
        match setting {
            TableWord::Granularity(_) => {}
            TableWord::Mode(word) => mode = mode_named(*word),
        }
    }
    mode
}

fn mode_named(word: ModeWord) -> LightMode
    ensures { result ≡ mode_named word }
{
    match word {
        ModeWord::Throw => LightMode::Throw,
        ModeWord::Drop => LightMode::Drop,
        ModeWord::Rebuild => LightMode::Rebuild,
    }
}
