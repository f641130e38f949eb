ghost use Rattle.std.specs.Prelude.{◌≡◌, ◌<◌, ◌≤◌, ℕ, None, [], ◌∷◌, length, IfOk};
ghost use Rattle.std.specs.List.{All};
ghost use Rattle.pj_value.specs.declared.value.Kind.TheVariants as kinds;
ghost use Rattle.pj_expr.specs.declared.table.Table.{Table};
ghost use Rattle.pj_expr.specs.Tables.{TableFits};
ghost use Rattle.pj_part.specs.Formed.{IsFormed, IsFormedColumn, IsFormedIndex, IsFormedSorted};
ghost use Rattle.pj_read.specs.Spans.{base_of};

use pj_index::{KeyMarks, Span};
use pj_layout::write_column;
use pj_part::*;
use pj_port::*;
use pj_read::{ReadPartFault, read_rows};
use pj_value::*;
use std::alloc::Global;
use std::sync::Arc;
use std::test::*;

/// Five numbers as a column, in granules of two values each.
fn file(alloc: Global, numbers: &[u64]) -> Result<ColumnFile<MemoryBlob>, Fail>
    requires { length numbers.now ≡ 5 }
    ensures kind { IfOk result (λ file. file.kind ≡ kinds.Num) }
    ensures formed { IfOk result (IsFormedColumn length 2 5) }
{
    written_columns_are_formed::<MemoryBlob>();
    let column = Column::from_numbers(Vec::from_slice(alloc, numbers)?);
    let written = write_column(alloc, &column, 2)?;
    let blob = SurePort::new(alloc).keep(written.bytes.as_slice())?;
    Ok(ColumnFile {
        blob,
        kind: Kind::Num,
        marks: written.marks,
    })
}

/// The index of the keys 1 to 5.
fn index(alloc: Global) -> Result<KeyMarks, Fail>
    ensures formed { IfOk result (IsFormedIndex (kinds.Num ∷ []) 2 5) }
    ensures granules { IfOk result (λ index. length index.firsts.rows ≡ 3) }
{
    let mut firsts = Rows::new(alloc, &[Kind::Num])?;
    firsts.push(&[Value::Num(1)])?;
    firsts.push(&[Value::Num(3)])?;
    firsts.push(&[Value::Num(5)])?;
    let last = List::from_vec(Vec::from_array(alloc, [Value::Num(5)])?);
    Ok(KeyMarks { firsts, last })
}

/// The numbers 1 to 5, which are the key, and ten times each.
fn sorted(alloc: Global) -> Result<Sorted<MemoryBlob>, Fail>
    ensures formed { IfOk result (IsFormedSorted length (kinds.Num ∷ kinds.Num ∷ []) (kinds.Num ∷ []) 2) }
    ensures columns { IfOk result (λ sorted. length sorted.columns ≡ 2) }
    ensures granules { IfOk result (λ sorted. length sorted.index.firsts.rows ≡ 3) }
{
    let index = index(alloc)?;
    let keys = file(alloc, &[1, 2, 3, 4, 5])?;
    let values = file(alloc, &[10, 20, 30, 40, 50])?;
    Ok(Sorted {
        rows: 5,
        index,
        columns: List::from_vec(Vec::from_array(alloc, [keys, values])?),
    })
}

/// A part of these rows.
fn part(alloc: Global) -> Result<Part<MemoryBlob>, Fail>
    ensures formed { IfOk result (λ part. (table : Table) × TableFits table × IsFormed length table part) }
    ensures unmasked { IfOk result (λ part. part.mask ≡ None) }
    ensures columns { IfOk result (λ part. length (base_of part).columns ≡ 2) }
    ensures granules { IfOk result (λ part. length (base_of part).index.firsts.rows ≡ 3) }
{
    let piece = Piece {
        home: 1,
        id: PieceId::Base,
        sorted: sorted(alloc)?,
    };
    Ok(Part {
        number: 1,
        min: 1,
        max: 1,
        level: 0,
        field: 0,
        base: Arc::new(alloc, piece)?,
        mask: None,
        sides: List::from_vec(Vec::new(alloc)),
    })
}

/// What is read of that part, where one call of the port fails, or none.
fn read(
    alloc: Global,
    fail: u64,
    columns: &[usize],
    span: Span,
) -> Result<Result<Rows, ReadPartFault>, Fail>
    requires columns { All (λ at. at < 2) columns.now }
    requires span { span.from ≤ span.to }
    requires granules { span.to ≤ 3 }
{
    let part = part(alloc)?;
    let mut port = MemoryPort::new(vec![in alloc; fail]?);
    Ok(read_rows(alloc, &mut port, &part, columns, span))
}

/// Whether these rows are read: how many, and the numbers of the last column, if there is one.
fn is_read(
    alloc: Global,
    columns: &[usize],
    span: Span,
    len: usize,
    last: &[u64],
) -> Result<bool, Fail>
    requires columns { All (λ at. at < 2) columns.now }
    requires span { span.from ≤ span.to }
    requires granules { span.to ≤ 3 }
{
    let rows = read(alloc, 0, columns, span)??;
    let many = rows.kinds().len();
    if many != columns.len() || rows.len() != len {
        return Ok(false);
    }
    if many == 0 {
        return Ok(true);
    }
    match rows.column(many - 1).numbers() {
        Some(numbers) => Ok(numbers == last),
        None => Ok(false),
    }
}

#[test]
fn the_rows_of_a_span_are_read(rt: HostRuntime) -> Result<(), Fail> {
    let alloc = rt.alloc();
    let all = Span { from: 0, to: 3 };
    let first = Span { from: 0, to: 1 };
    let last = Span { from: 2, to: 3 };
    let none = Span { from: 1, to: 1 };
    assert!(rt; is_read(alloc, &[0, 1], all, 5, &[10, 20, 30, 40, 50])?);
    assert!(rt; is_read(alloc, &[1, 0], first, 2, &[1, 2])?);
    assert!(rt; is_read(alloc, &[1], last, 1, &[50])?);
    assert!(rt; is_read(alloc, &[1, 1], none, 0, &[])?);
    assert!(rt; is_read(alloc, &[0, 0], all, 5, &[1, 2, 3, 4, 5])?);
    assert!(rt; is_read(alloc, &[], Span { from: 1, to: 3 }, 3, &[])?);
    Ok(())
}

#[test]
fn a_read_that_fails_is_a_store_fault(rt: HostRuntime) -> Result<(), Fail> {
    let all = Span { from: 0, to: 3 };
    for fail in 1..7 {
        let result = read(rt.alloc(), fail, &[0, 1], all)?;
        assert!(rt;
            matches!(result, Err(ReadPartFault::StoreFault)),
            "call {fail}"
        );
    }
    assert!(rt; read(rt.alloc(), 7, &[0, 1], all)?.is_ok());
    assert!(rt; read(rt.alloc(), 1, &[], all)?.is_ok());
    Ok(())
}
