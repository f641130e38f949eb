//! The rows of an INSERT, with a value for each column of the table.
ghost use Rattle.std.specs.Prelude.{◌≡◌, ◌++◌, ◌∷◌, [], IfOk, OnOk, map};
ghost use Rattle.std.specs.List.{AllByRecursion, position};
ghost use Rattle.std.specs.Str.{bytes_eq};
ghost use Rattle.pj_value.specs.Rows.{HaveKinds};
ghost use Rattle.pj_value.specs.Aggregates.{default};
ghost use Rattle.pj_bind.specs.Filling.{literal_or_default, filled_row, column_kinds};
ghost use Rattle.pj_bind.specs.Filling.{FillsRow, FillColumns, filled_rows};
ghost use Rattle.pj_bind.specs.Sources.{source_of, source_kinds, filled_from, FillsFrom};

use pj_expr::{ColumnDef, Table};
use pj_grammar::types::ValueRows;
use pj_value::{Kind, List, NoMemory, PushFault, Rows, Text, Value};
use std::alloc::Global;

/// The rows of an INSERT into the table, with a value for each column. WrongShape exactly where a row hasn't
/// a literal for each column that it fills, of the column's kind. It takes time linear in the rows, times
/// the columns of the table; names are compared once, and not for each row.
pub(crate) fn rows_filled(
    alloc: Global,
    table: &Table,
    listed: &Option<List<Text>>,
    rows: &ValueRows,
) -> Result<Rows, PushFault>
    ensures rows { IfOk result (λ made. made ≡ record {
      kinds = column_kinds table.now.columns;
      rows = filled_rows table.now.columns listed.now rows.now;
    }) }
    ensures fill { IfOk result (λ _. FillColumns table.now.columns listed.now rows.now) }
    ensures shape { result ≡ Err PushFault.WrongShape
        → FillColumns table.now.columns listed.now rows.now → ⊥ }
{
    let kinds = table.kinds(alloc)?;
    match listed {
        Some(names) => {
            let columns = table.columns.as_slice();
            rows_for_names(alloc, kinds.as_slice(), columns, names.as_slice(), rows)
        }
        None => rows_as_they_are(alloc, kinds.as_slice(), rows),
    }
}

/// The rows with these kinds.
fn rows_as_they_are(alloc: Global, kinds: &[Kind], rows: &ValueRows) -> Result<Rows, PushFault>
    ensures rows { IfOk result
        (λ made. (made ≡ record { kinds = kinds.now; rows = rows.now }) × HaveKinds kinds.now rows.now) }
    ensures shape { result ≡ Err PushFault.WrongShape → HaveKinds kinds.now rows.now → ⊥ }
{
    let mut made = Rows::new(alloc, kinds)?;
    'rows: for at in 0..rows.len() {
        made.push(rows.row(at))?;
    }
    // The call says that each row has the kinds.
    let _ = made.kinds();
    Ok(made)
}

/// What fills a column: its kind, and the index of its literal in each row, none where it is left out.
#[derive(Clone, Copy)]
struct Source {
    kind: Kind,
    index: Option<usize>,
}

/// The rows of literals for these names.
fn rows_for_names(
    alloc: Global,
    kinds: &[Kind],
    columns: &[ColumnDef],
    names: &[Text],
    rows: &ValueRows,
) -> Result<Rows, PushFault>
    requires { kinds.now ≡ column_kinds columns.now }
    ensures rows { IfOk result (λ made. made
        ≡ record { kinds = kinds.now; rows = map (filled_row columns.now names.now) rows.now }) }
    ensures fill { IfOk result (λ _. AllByRecursion (FillsRow columns.now names.now) rows.now) }
    ensures shape { result ≡ Err PushFault.WrongShape
        → AllByRecursion (FillsRow columns.now names.now) rows.now → ⊥ }
{
    let sources = sources_of(alloc, columns, names)?;
    rows_from(alloc, kinds, sources.as_slice(), names.len(), rows)
}

/// What fills each column. Names are compared here alone, and not for each row.
fn sources_of(alloc: Global, columns: &[ColumnDef], names: &[Text]) -> Result<Vec<Source>, NoMemory>
    ensures { IfOk result (λ sources. sources.items ≡ map (source_of names.now) columns.now) }
{
    let mut sources = Vec::with_capacity(alloc, columns.len())?;
    'columns: for column in columns {
        sources.push(source_of(names, column))?;
    }
    Ok(sources)
}

/// What fills a column.
fn source_of(names: &[Text], column: &ColumnDef) -> Source
    ensures { result ≡ source_of names.now column.now }
{
    Source {
        kind: column.kind,
        index: index_of(names, &column.name),
    }
}

/// What the sources give of rows of this many literals.
fn rows_from(
    alloc: Global,
    kinds: &[Kind],
    sources: &[Source],
    width: usize,
    rows: &ValueRows,
) -> Result<Rows, PushFault>
    requires { kinds.now ≡ source_kinds sources.now }
    ensures rows { IfOk result (λ made. made
        ≡ record { kinds = kinds.now; rows = map (filled_from sources.now) rows.now }) }
    ensures fill { IfOk result (λ _. AllByRecursion (FillsFrom sources.now width) rows.now) }
    ensures shape { result ≡ Err PushFault.WrongShape
        → AllByRecursion (FillsFrom sources.now width) rows.now → ⊥ }
{
    let mut made = Rows::new(alloc, kinds)?;
    'rows: for at in 0..rows.len() {
        push_filled(alloc, &mut made, sources, width, rows.row(at))?;
    }
    Ok(made)
}

/// Adds what the sources give of a row of this many literals.
fn push_filled(
    alloc: Global,
    made: &mut Rows,
    sources: &[Source],
    width: usize,
    row: &[Value],
) -> Result<(), PushFault>
    requires { made.old.kinds ≡ source_kinds sources.now }
    ensures added { OnOk result
        (made.new ≡ record made.old { rows = made.old.rows ++ filled_from sources.now row.now ∷ [] }) }
    ensures fills { OnOk result (FillsFrom sources.now width row.now) }
    ensures shape { result ≡ Err PushFault.WrongShape → FillsFrom sources.now width row.now → ⊥ }
{
    if row.len() != width {
        return Err(PushFault::WrongShape);
    }
    let filled = row_from(alloc, sources, row)?;
    made.push(filled.as_slice())
}

/// What the sources give of a row of literals.
fn row_from(alloc: Global, sources: &[Source], row: &[Value]) -> Result<Vec<Value>, NoMemory>
    ensures { IfOk result (λ values. values.items ≡ filled_from sources.now row.now) }
{
    let mut values = Vec::with_capacity(alloc, sources.len())?;
    'sources: for source in sources {
        values.push(value_from(alloc, row, *source)?)?;
    }
    Ok(values)
}

/// What a source gives of a row of literals.
fn value_from(alloc: Global, row: &[Value], source: Source) -> Result<Value, NoMemory>
    ensures { IfOk result (λ value. value ≡ literal_or_default source.kind row.now source.index) }
{
    match source.index {
        Some(at) if at < row.len() => row[at].duplicate(alloc),
        Some(_) => Ok(Value::Num(0)),
        None => Ok(default_of(alloc, source.kind)),
    }
}

/// The index of a name among these.
fn index_of(names: &[Text], name: &Text) -> Option<usize>
    ensures { result ≡ position (λ other. bytes_eq other name.now) names.now }
{
    names
        .iter()
        .position(|other| other.as_slice() == name.as_slice())
}

/// The value of a column that is left out.
fn default_of(alloc: Global, kind: Kind) -> Value
    ensures { result ≡ default kind }
{
    match kind {
        Kind::Num => Value::Num(0),
        Kind::Text => Value::Text(Text::from_vec(Vec::new(alloc))),
    }
}
