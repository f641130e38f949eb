ghost use Rattle.std.specs.Prelude.{◌≡◌, ◌≤◌, ◌∷◌, [], map, IfOk, OnOk};
ghost use Rattle.pj_value.specs.declared.value.Kind.TheVariants as kinds;
ghost use Rattle.pj_expr.specs.Tables.{TableFits, kinds_of};

use pj_build::*;
use pj_expr::{ColumnDef, LightMode, Table};
use pj_index::KeyMarks;
use pj_layout::write_column;
use pj_part::*;
use pj_port::{MemoryBlob, MemoryPort, Port, SurePort};
use pj_value::*;
use std::alloc::Global;
use std::test::*;

fn column(alloc: Global, name: &[u8], kind: Kind) -> Result<ColumnDef, NoMemory>
    ensures { IfOk result (λ column. column.kind ≡ kind) }
{
    let name = Text::new(alloc, name)?;
    Ok(ColumnDef { name, kind })
}

/// A number and a text.
fn columns(alloc: Global) -> Result<Vec<ColumnDef>, NoMemory>
    ensures { IfOk result (λ columns. map (λ c. c.kind) columns.items ≡ kinds.Num ∷ kinds.Text ∷ []) }
{
    let number = column(alloc, b"k", Kind::Num)?;
    let text = column(alloc, b"s", Kind::Text)?;
    Ok(Vec::from_array(alloc, [number, text])?)
}

/// The table of these columns, sorted by the number.
fn table(alloc: Global, granularity: u32) -> Result<Table, NoMemory>
    requires some { 1 ≤ granularity }
    requires few { granularity ≤ 65536 }
    ensures fits { IfOk result TableFits }
    ensures kinds { IfOk result (λ table. kinds_of table ≡ kinds.Num ∷ kinds.Text ∷ []) }
{
    let columns = columns(alloc)?;
    Ok(Table {
        name: Text::new(alloc, b"t")?,
        columns: List::from_vec(columns),
        key: List::from_vec(Vec::from_array(alloc, [0])?),
        granularity,
        mode: LightMode::Throw,
    })
}

fn push(alloc: Global, rows: &mut Rows, number: u64, text: &[u8]) -> Result<(), PushFault>
    ensures { OnOk result (rows.new.kinds ≡ rows.old.kinds) }
{
    let text = Text::new(alloc, text)?;
    rows.push(&[Value::Num(number), Value::Text(text)])
}

/// Rows of a number and a text each.
fn rows(alloc: Global, pairs: &[(u64, &[u8])]) -> Result<Rows, PushFault>
    ensures { IfOk result (λ rows. rows.kinds ≡ kinds.Num ∷ kinds.Text ∷ []) }
{
    let mut rows = Rows::new(alloc, &[Kind::Num, Kind::Text])?;
    'pairs: for (number, text) in pairs {
        push(alloc, &mut rows, *number, text)?;
    }
    Ok(rows)
}

/// A column as it is written and kept by itself.
fn kept(
    alloc: Global,
    column: &Column,
    granularity: u32,
) -> Result<ColumnFile<MemoryBlob>, BuildFault>
    requires some { 1 ≤ granularity }
    requires few { granularity ≤ 65536 }
{
    let written = write_column(alloc, column, granularity)?;
    let blob = SurePort::new(alloc).keep(written.bytes.as_slice())?;
    Ok(ColumnFile {
        blob,
        kind: column.kind(),
        marks: written.marks,
    })
}

/// The columns of these rows as they are written and kept.
fn files(
    alloc: Global,
    rows: &Rows,
    granularity: u32,
) -> Result<Vec<ColumnFile<MemoryBlob>>, BuildFault>
    requires some { 1 ≤ granularity }
    requires few { granularity ≤ 65536 }
    requires kinds { rows.now.kinds ≡ kinds.Num ∷ kinds.Text ∷ [] }
{
    let numbers = kept(alloc, rows.column(0), granularity)?;
    let texts = kept(alloc, rows.column(1), granularity)?;
    Ok(Vec::from_array(alloc, [numbers, texts])?)
}

/// An index of keys that are numbers.
fn index(alloc: Global, firsts: &[u64], last: &[u64]) -> Result<KeyMarks, NoMemory> {
    let firsts = Column::from_numbers(Vec::from_slice(alloc, firsts)?);
    let firsts = Rows::from_columns(alloc, Vec::from_array(alloc, [firsts])?)?;
    let last = last
        .iter()
        .map(|number| Value::Num(*number))
        .collect(alloc)?;
    Ok(KeyMarks {
        firsts,
        last: List::from_vec(last),
    })
}

/// What is shown of the base of the draft that is built of these rows.
fn built(alloc: Global, granularity: u32, pairs: &[(u64, &[u8])]) -> Result<String, Fail>
    requires some { 1 ≤ granularity }
    requires few { granularity ≤ 65536 }
{
    let table = table(alloc, granularity)?;
    let rows = rows(alloc, pairs)?;
    let mut port = MemoryPort::new(Vec::new(alloc));
    let draft = build(alloc, &mut port, &table, &rows)?;
    Ok(format!(in alloc; "{:?}", draft.base)?)
}

/// What is shown of sorted rows that are written by hand.
fn by_hand(
    alloc: Global,
    granularity: u32,
    pairs: &[(u64, &[u8])],
    firsts: &[u64],
    last: &[u64],
) -> Result<String, Fail>
    requires some { 1 ≤ granularity }
    requires few { granularity ≤ 65536 }
{
    let rows = rows(alloc, pairs)?;
    let columns = files(alloc, &rows, granularity)?;
    let index = index(alloc, firsts, last)?;
    let sorted = Some(Sorted {
        rows: rows.len() as u64,
        index,
        columns: List::from_vec(columns),
    });
    Ok(format!(in alloc; "{sorted:?}")?)
}

/// Five rows, not sorted, of which some have one number.
const FIVE: [(u64, &[u8]); 5] = [(3, b"c"), (1, b"a"), (3, b"b"), (2, b""), (1, b"d")];

/// The same rows in the order of their numbers.
const SORTED: [(u64, &[u8]); 5] = [(1, b"a"), (1, b"d"), (2, b""), (3, b"c"), (3, b"b")];

#[test]
fn a_draft_has_the_rows_sorted_and_equal_keys_in_their_order(rt: HostRuntime) -> Result<(), Fail> {
    let built = built(rt.alloc(), 2, &FIVE)?;
    assert_eq!(rt; built, by_hand(rt.alloc(), 2, &SORTED, &[1, 2, 3], &[3])?);
    Ok(())
}

#[test]
fn rows_that_fit_in_one_granule_have_one(rt: HostRuntime) -> Result<(), Fail> {
    let built = built(rt.alloc(), 8192, &FIVE)?;
    assert_eq!(rt; built, by_hand(rt.alloc(), 8192, &SORTED, &[1], &[3])?);
    Ok(())
}

#[test]
fn no_rows_have_no_granule(rt: HostRuntime) -> Result<(), Fail> {
    let built = built(rt.alloc(), 2, &[])?;
    assert_eq!(rt; built, by_hand(rt.alloc(), 2, &[], &[], &[])?);
    Ok(())
}

/// What building the five rows is answered where this call of the port fails.
fn fault(alloc: Global, fail: u64) -> Result<Option<BuildFault>, Fail> {
    let table = table(alloc, 2)?;
    let rows = rows(alloc, &FIVE)?;
    let mut port = MemoryPort::new(Vec::from_array(alloc, [fail])?);
    Ok(build(alloc, &mut port, &table, &rows).err())
}

#[test]
fn a_column_that_is_not_kept_is_a_store_fault(rt: HostRuntime) -> Result<(), Fail> {
    for (fail, wanted) in [
        (0, None),
        (1, Some(BuildFault::StoreFault)),
        (2, Some(BuildFault::StoreFault)),
        (3, None),
    ] {
        assert_eq!(rt; fault(rt.alloc(), fail)?, wanted, "call {fail}");
    }
    Ok(())
}
