//! Binding: a statement's names become numbers, and its rows get a value for each column, or it is refused.
ghost use Rattle.std.specs.Prelude.{◌≡◌, ◌≤◌, length};
ghost use Rattle.std.specs.Prelude.{IfOk, IfErr, MatchOption, OnOk};
ghost use Rattle.pj_expr.specs.Fits.{KeepsGroups, KeepsKinds};
ghost use Rattle.pj_expr.specs.Tables.{kinds_of};
ghost use Rattle.pj_bind.specs.Filling.{listed_names, FillColumns, filled_rows};
ghost use Rattle.pj_bind.specs.Built.{IsBuilt};
ghost use Rattle.pj_bind.specs.Causes.{First};
ghost use Rattle.pj_bind.specs.Binding.{IsBound, IsUnknown, CanBeCreated, AreColumns, Asks};
ghost use Rattle.pj_bind.specs.Binding.{create_causes, insert_causes, select_causes, asked_of};
ghost use Rattle.pj_bind.specs.Faults.{IsFault, IsBindFault, IsBuiltFault, IsAt, IsMisfit};
ghost use Rattle.pj_bind.specs.declared.binding.BindFault.TheVariants as faults;

use crate::built::is_built;
use crate::filling::rows_filled;
use crate::names::{first_repeat, names_of, unknown_in_names};
use crate::queries::{query_of, unknown_in_select};
use crate::tables::{columns_of, table_of};
use crate::types::{Bound, LimitName, Refusal};
use pj_expr::{Query, Table, keeps_groups, keeps_kinds};
use pj_grammar::types::{Statement, TreeColumn, TreeSelect, ValueRows};
use pj_journal::TABLES;
use pj_journal::types::Catalog;
use pj_value::{List, NoMemory, PushFault, Rows, Text};
use std::alloc::{AllocError, AllocFailed, Global};
use thiserror::Error;

/// The most columns that a table may have.
const COLUMNS: usize = 64;

/// Why a statement doesn't bind.
#[derive(Debug, Drop, Error)]
pub enum BindFault {
    /// It is refused so, and stays refused for these tables.
    #[error("refused")]
    Refused(Refusal),
    /// Out of memory.
    #[error("out of memory")]
    NoMemory,
}

impl From<NoMemory> for BindFault {
    ghost from_gives = { λ _ e. e ≡ faults.NoMemory };

    fn from(_e: NoMemory) -> BindFault {
        BindFault::NoMemory
    }
}

impl From<AllocError> for BindFault {
    ghost from_gives = { λ _ e. e ≡ faults.NoMemory };

    fn from(_e: AllocError) -> BindFault {
        BindFault::NoMemory
    }
}

impl<T: Drop> From<AllocFailed<T>> for BindFault {
    ghost from_gives = { λ _ e. e ≡ faults.NoMemory };

    fn from(_e: AllocFailed<T>) -> BindFault {
        BindFault::NoMemory
    }
}

/// The bound statement for these tables, or its first refusal: NotBuilt for a form that isn't built, whatever
/// the tables are. It takes time linear in the statement, times the columns of its table (n log n in an
/// INSERT's list of n names), and memory for what is bound.
pub fn bind(alloc: Global, statement: &Statement, catalog: &Catalog) -> Result<Bound, BindFault>
    ensures built { OnOk result (IsBuilt statement.now) }
    ensures bound { IfOk result (IsBound catalog.now statement.now) }
    ensures refused { IfErr result (IsBindFault catalog.now statement.now) }
{
    if !is_built(statement) {
        return Err(BindFault::Refused(Refusal::NotBuilt));
    }
    bind_built(alloc, statement, catalog.tables())
}

fn bind_built(alloc: Global, statement: &Statement, tables: &[Table]) -> Result<Bound, BindFault>
    requires built { IsBuilt statement.now }
    requires few { length tables.now ≤ TABLES }
    ensures bound { IfOk result (IsBound tables.now statement.now) }
    ensures refused { IfErr result (IsBuiltFault tables.now statement.now) }
{
    match statement {
        Statement::Create {
            name,
            columns,
            key,
            settings,
            ..
        } => {
            let columns = columns.as_slice();
            let key = key.as_slice();
            check_create(alloc, tables, name, columns, key)?;
            let table = table_of(alloc, name, columns, key, settings.as_slice())?;
            Ok(Bound::Create(table))
        }
        Statement::Insert {
            table,
            columns,
            rows,
        } => insert(alloc, tables, table, columns, rows),
        Statement::Select(select) => select_from(alloc, tables, select),
        _ => unreachable!(),
    }
}

/// That a table can be created, or why not.
fn check_create(
    alloc: Global,
    tables: &[Table],
    name: &Text,
    columns: &[TreeColumn],
    key: &[Text],
) -> Result<(), BindFault>
    ensures can { OnOk result (CanBeCreated tables.now name.now columns.now key.now) }
    ensures refused { IfErr result
        (IsFault (First (create_causes tables.now name.now columns.now key.now))) }
{
    if number_of(tables, name).is_some() {
        let name = name.duplicate(alloc)?;
        return Err(BindFault::Refused(Refusal::TableExists(name)));
    }
    if tables.len() >= TABLES {
        return Err(BindFault::Refused(Refusal::Limit(LimitName::Tables)));
    }
    if columns.len() > COLUMNS {
        return Err(BindFault::Refused(Refusal::Limit(LimitName::Columns)));
    }
    let defs = columns_of(alloc, columns)?;
    let names = names_of(alloc, defs.as_slice())?;
    if let Some(repeated) = first_repeat(alloc, names.as_slice())? {
        return Err(duplicate_column(alloc, repeated));
    }
    if let Some(repeated) = first_repeat(alloc, key)? {
        return Err(duplicate_column(alloc, repeated));
    }
    if let Some(unknown) = unknown_in_names(defs.as_slice(), key) {
        return Err(unknown_identifier(alloc, unknown));
    }
    Ok(())
}

/// The refusal of a name that repeats an earlier one.
fn duplicate_column(alloc: Global, name: &Text) -> BindFault
    ensures { IsFault (λ r. r ≡ Refusal.DuplicateColumn name.now) result }
{
    match name.duplicate(alloc) {
        Ok(name) => BindFault::Refused(Refusal::DuplicateColumn(name)),
        Err(NoMemory) => BindFault::NoMemory,
    }
}

/// The refusal of a name that is no column.
fn unknown_identifier(alloc: Global, name: &Text) -> BindFault
    ensures { IsFault (λ r. r ≡ Refusal.UnknownIdentifier name.now) result }
{
    match name.duplicate(alloc) {
        Ok(name) => BindFault::Refused(Refusal::UnknownIdentifier(name)),
        Err(NoMemory) => BindFault::NoMemory,
    }
}

/// The refusal of a table that isn't there.
fn unknown_table(alloc: Global, name: &Text) -> BindFault
    ensures { IsFault (λ r. r ≡ Refusal.UnknownTable name.now) result }
{
    match name.duplicate(alloc) {
        Ok(name) => BindFault::Refused(Refusal::UnknownTable(name)),
        Err(NoMemory) => BindFault::NoMemory,
    }
}

fn insert(
    alloc: Global,
    tables: &[Table],
    name: &Text,
    listed: &Option<List<Text>>,
    rows: &ValueRows,
) -> Result<Bound, BindFault>
    requires few { length tables.now ≤ TABLES }
    ensures bound { IfOk result (IsBound tables.now (Statement.Insert name.now listed.now rows.now)) }
    ensures refused { IfErr result
        (IsBuiltFault tables.now (Statement.Insert name.now listed.now rows.now)) }
{
    let Some(number) = number_of(tables, name) else {
        return Err(unknown_table(alloc, name));
    };
    let rows = insert_into(alloc, &tables[number], listed, rows)?;
    Ok(Bound::Insert {
        table: number as u32,
        rows,
    })
}

/// The rows of an INSERT into the table, or why it is refused.
fn insert_into(
    alloc: Global,
    table: &Table,
    listed: &Option<List<Text>>,
    rows: &ValueRows,
) -> Result<Rows, BindFault>
    ensures columns { OnOk result (AreColumns table.now listed.now) }
    ensures fill { OnOk result (FillColumns table.now.columns listed.now rows.now) }
    ensures rows { IfOk result (λ made. made ≡ record {
      kinds = kinds_of table.now;
      rows = filled_rows table.now.columns listed.now rows.now;
    }) }
    ensures refused { IfErr result
        (IsFault (First (asked_of table.now (insert_causes listed.now rows.now)))) }
{
    let names = names_listed(listed);
    if let Some(repeated) = first_repeat(alloc, names)? {
        return Err(duplicate_column(alloc, repeated));
    }
    if let Some(unknown) = unknown_in_names(table.columns.as_slice(), names) {
        return Err(unknown_identifier(alloc, unknown));
    }
    match rows_filled(alloc, table, listed, rows) {
        Ok(rows) => Ok(rows),
        Err(PushFault::WrongShape) => Err(BindFault::Refused(Refusal::TypeMismatch)),
        Err(PushFault::NoMemory) => Err(BindFault::NoMemory),
    }
}

/// The names that an INSERT lists.
fn names_listed(listed: &Option<List<Text>>) -> &[Text]
    ensures { result.now ≡ listed_names listed.now }
{
    match listed {
        Some(names) => names.as_slice(),
        None => &[],
    }
}

fn select_from(alloc: Global, tables: &[Table], select: &TreeSelect) -> Result<Bound, BindFault>
    requires few { length tables.now ≤ TABLES }
    ensures bound { IfOk result (IsBound tables.now (Statement.Select select.now)) }
    ensures refused { IfErr result (IsBuiltFault tables.now (Statement.Select select.now)) }
{
    let Some(number) = number_of(tables, &select.table) else {
        return Err(unknown_table(alloc, &select.table));
    };
    let query = query_over(alloc, &tables[number], select)?;
    Ok(Bound::Select {
        table: number as u32,
        query,
    })
}

/// The query that a SELECT from the table asks for, or why it is refused.
fn query_over(alloc: Global, table: &Table, select: &TreeSelect) -> Result<Query, BindFault>
    ensures asks { IfOk result (Asks table.now select.now) }
    ensures refused { IfErr result (IsFault (First (asked_of table.now (select_causes select.now)))) }
{
    let columns = table.columns.as_slice();
    if let Some(unknown) = unknown_in_select(columns, select) {
        return Err(unknown_identifier(alloc, unknown));
    }
    let Some(query) = query_of(alloc, columns, select)? else {
        return Err(BindFault::Refused(Refusal::TypeMismatch));
    };
    check_query(alloc, table, &query)?;
    Ok(query)
}

/// That the query fits the kinds of the table's columns, and gives nothing else besides where it aggregates,
/// or why not.
fn check_query(alloc: Global, table: &Table, query: &Query) -> Result<(), BindFault>
    ensures kinds { OnOk result (KeepsKinds (kinds_of table.now) query.now) }
    ensures groups { OnOk result (KeepsGroups query.now) }
    ensures refused { IfErr result (IsFault (IsMisfit table.now query.now)) }
{
    let kinds = table.kinds(alloc)?;
    if !keeps_kinds(query, kinds.as_slice()) {
        return Err(BindFault::Refused(Refusal::TypeMismatch));
    }
    if !keeps_groups(query) {
        return Err(BindFault::Refused(Refusal::NotAnAggregate));
    }
    Ok(())
}

/// The number of the table of this name.
fn number_of(tables: &[Table], name: &Text) -> Option<usize>
    ensures { MatchOption result (IsUnknown tables.now name.now) (IsAt tables.now name.now) }
{
    'tables: for (number, table) in tables.iter().enumerate() {
        if table.name.as_slice() == name.as_slice() {
            return Some(number);
        }
    }
    None
}
