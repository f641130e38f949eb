//! Columns are read a granule at a time, through one buffer.
ghost use Rattle.std.specs.Prelude.{◌≡◌, ◌<◌, ◌≤◌, ◌+◌, ◌-◌, ◌*◌, ◌++◌, ℕ, min, length, map, Some, slice_range};
ghost use Rattle.std.specs.Prelude.{IfOk, IfSome, OnOk, IsErrOf};
ghost use Rattle.std.specs.List.{All, AllByRecursion, AllZip};
ghost use Rattle.pj_io.specs.Faults.{Rose};
ghost use Rattle.pj_value.specs.NumberBytes.{AreBytes};
ghost use Rattle.pj_value.specs.Columns.{KindedValues, kinds_of};
ghost use Rattle.pj_value.specs.Rows.{KindedRows, column_of};
ghost use Rattle.pj_layout.specs.Blobs.{chunk};
ghost use Rattle.pj_part.specs.Formed.{kinds_at, IsFormedColumn, granule_rows};
ghost use Rattle.pj_part.specs.Agreement.{columns_of, HoldsColumn};
ghost use Rattle.pj_read.specs.Spans.{in_span, span_rows};
ghost use Rattle.pj_read.specs.Causes.{HasPortCause, TookReads, GaveDamage, GaveDamageIn};
ghost use Rattle.pj_read.specs.Layout.{part_in_span, IsReadable, GaveDamageOf};
ghost use Rattle.pj_read.specs.declared.fault.ReadPartFault.TheVariants as faults;

use crate::fault::ReadPartFault;
use pj_index::Span;
use pj_layout::{
    GranuleFault, Mark, damage_is_exact, granules_stand_at_their_marks, granules_tell_their_values,
    read_granule,
};
use pj_part::ColumnFile;
use pj_port::Port;
use pj_value::{Column, NoMemory};
use std::alloc::Global;

/// Reads the granules of a span in each of these columns, which count among the files.
pub(crate) fn read_columns<P: Port>(
    alloc: Global,
    port: &mut P,
    files: &[ColumnFile<P::Blob>],
    columns: &[usize],
    span: Span,
) -> Result<Vec<Column>, ReadPartFault>
    requires readable { AllByRecursion (IsReadable P.Blob.size span.to) files.now }
    requires columns { All (λ at. at < length files.now) columns.now }
    requires span { span.from ≤ span.to }
    ensures held { (granularity : ℕ) (rows : KindedRows)
        → AllZip (HoldsColumn P.Blob.told granularity) files.now (columns_of rows)
        → IfOk result (λ read. read.items ≡ map (column_of (in_span granularity span rows)) columns.now) }
    ensures kinds { IfOk result
        (λ read. kinds_of read.items ≡ kinds_at (map (λ file. file.kind) files.now) columns.now) }
    ensures len { (granularity rows : ℕ)
        → AllByRecursion (IsFormedColumn P.Blob.size granularity rows) files.now
        → IfOk result (λ read. All (λ c. length c.values ≡ span_rows granularity span rows) read.items) }

    ensures faults { HasPortCause (P.faults port.old) (P.faults port.new) result }
    ensures reads { TookReads (length columns.now * (span.to - span.from))
        (P.reads port.old) (P.reads port.new) result }

    ensures damaged { (column granule at : ℕ) → IsErrOf result (faults.Damaged column granule at)
        → GaveDamageIn files.now columns.now span column granule at
        (P.reads port.old) (P.reads port.new) (P.last port.new) }
    ensures undamaged { (granularity : ℕ) (rows : KindedRows)
        → AllZip (HoldsColumn P.Blob.told granularity) files.now (columns_of rows)
        → (column granule at : ℕ) → IsErrOf result (faults.Damaged column granule at) → ⊥ }
{
    let mut buffer = Vec::new(alloc);
    let mut read = Vec::with_capacity(alloc, columns.len())?;
    'picks: for at in columns {
        read.push(read_column(port, &mut buffer, &files[*at], *at, span)?)?;
    }
    Ok(read)
}

/// Reads the granules of a span in one column, which faults name by its index.
fn read_column<P: Port>(
    port: &mut P,
    buffer: &mut Vec<u8>,
    file: &ColumnFile<P::Blob>,
    column: usize,
    span: Span,
) -> Result<Column, ReadPartFault>
    requires readable { IsReadable P.Blob.size span.to file.now }
    requires span { span.from ≤ span.to }
    ensures held { (granularity : ℕ) (values : KindedValues)
        → HoldsColumn P.Blob.told granularity file.now values
        → IfOk result (λ read. read ≡ part_in_span granularity span.from span.to values) }
    ensures kind { IfOk result (λ read. read.kind ≡ file.now.kind) }
    ensures len { (granularity rows : ℕ) → map (λ m. m.rows) file.now.marks ≡ granule_rows granularity rows
        → IfOk result (λ read. length read.values ≡ span_rows granularity span rows) }

    ensures faults { HasPortCause (P.faults port.old) (P.faults port.new) result }
    ensures reads { TookReads (span.to - span.from) (P.reads port.old) (P.reads port.new) result }

    ensures damaged { (c granule at : ℕ) → IsErrOf result (faults.Damaged c granule at)
        → GaveDamageOf file.now column span c granule at
        (P.reads port.old) (P.reads port.new) (P.last port.new) }
    ensures undamaged { (granularity : ℕ) (values : KindedValues)
        → HoldsColumn P.Blob.told granularity file.now values
        → (c granule at : ℕ) → IsErrOf result (faults.Damaged c granule at) → ⊥ }
{
    let alloc = *buffer.allocator();
    let mut read = Column::new(alloc, file.kind);
    'granules: for granule in span.from..span.to {
        let values = read_granule_at(port, buffer, file, column, granule)?;
        read = joined(alloc, read, values)?;
    }
    Ok(read)
}

/// Values behind others of their kind. Where there are no others they are moved.
fn joined(alloc: Global, values: Column, more: Column) -> Result<Column, NoMemory>
    requires { more.kind ≡ values.kind }
    ensures { IfOk result (λ c. c ≡ record values { values = values.values ++ more.values }) }
{
    if values.len() == 0 {
        return Ok(more);
    }
    let mut values = values;
    values.append(&more, alloc)?;
    Ok(values)
}

/// Reads a granule of a column into the buffer, and decodes it.
fn read_granule_at<P: Port>(
    port: &mut P,
    buffer: &mut Vec<u8>,
    file: &ColumnFile<P::Blob>,
    column: usize,
    granule: usize,
) -> Result<Column, ReadPartFault>
    requires within { AllByRecursion (λ m. m.at + m.size ≤ P.Blob.size file.now.blob) file.now.marks }
    requires there { granule < length file.now.marks }
    ensures held { (granularity : ℕ) (values : KindedValues)
        → HoldsColumn P.Blob.told granularity file.now values
        → IfOk result (λ read. read ≡ chunk granularity values granule) }
    ensures kind { IfOk result (λ read. read.kind ≡ file.now.kind) }
    ensures len { (granularity rows : ℕ) → map (λ m. m.rows) file.now.marks ≡ granule_rows granularity rows
        → IfOk result (λ read. length read.values ≡ min granularity (rows - granule * granularity)) }

    ensures faults { HasPortCause (P.faults port.old) (P.faults port.new) result }
    ensures reads { TookReads 1 (P.reads port.old) (P.reads port.new) result }

    ensures damaged { (c k at : ℕ) → IsErrOf result (faults.Damaged c k at)
        → (c ≡ column) × (k ≡ granule)
        × Rose (P.reads port.old) (P.reads port.new) × GaveDamage file.now granule at (P.last port.new) }
    ensures undamaged { (granularity : ℕ) (values : KindedValues)
        → HoldsColumn P.Blob.told granularity file.now values
        → (c k at : ℕ) → IsErrOf result (faults.Damaged c k at) → ⊥ }
{
    damage_is_exact();
    granules_stand_at_their_marks();
    granules_tell_their_values();
    let mark = file.marks.as_slice()[granule];
    fill(port, buffer, &file.blob, mark)?;
    match read_granule(*buffer.allocator(), file.kind, mark.rows, buffer.as_slice()) {
        Ok(values) => Ok(values),
        Err(GranuleFault::Damaged { at }) => Err(ReadPartFault::Damaged {
            column,
            granule,
            at,
        }),
        Err(GranuleFault::NoMemory) => Err(ReadPartFault::NoMemory),
    }
}

/// Reads the bytes at a mark into the buffer, in place of what it had.
fn fill<P: Port>(
    port: &mut P,
    buffer: &mut Vec<u8>,
    blob: &P::Blob,
    mark: Mark,
) -> Result<(), ReadPartFault>
    requires { mark.at + mark.size ≤ P.Blob.size blob.now }
    ensures told { OnOk result (IfSome (P.Blob.told blob.now)
        (λ all. buffer.new.items ≡ slice_range all mark.at (mark.at + mark.size))) }
    ensures size { OnOk result (length buffer.new.items ≡ mark.size) }
    ensures bytes { OnOk result (AreBytes buffer.new.items) }
    ensures last { OnOk result (P.last port.new ≡ Some (record { at = mark.at; bytes = buffer.new.items })) }

    ensures faults { HasPortCause (P.faults port.old) (P.faults port.new) result }
    ensures reads { TookReads 1 (P.reads port.old) (P.reads port.new) result }
    ensures undamaged { (c k at : ℕ) → IsErrOf result (faults.Damaged c k at) → ⊥ }
{
    buffer.resize(mark.size as usize, 0)?;
    port.read(blob, mark.at, buffer.as_mut_slice())?;
    Ok(())
}
