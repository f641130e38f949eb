//! The rows of a span of granules, as columns of the base tell them.
ghost use Rattle.std.specs.Prelude.{◌≡◌, ◌<◌, ◌≤◌, ◌-◌, ◌*◌, ℕ, None, List, length, map, slice_index_or, IfOk, IsErrOf};
ghost use Rattle.std.specs.List.{All, AllByRecursion};
ghost use Rattle.pj_value.specs.Rows.{KindedRows};
ghost use Rattle.pj_expr.specs.declared.table.Table.{Table};
ghost use Rattle.pj_expr.specs.Tables.{TableFits};
ghost use Rattle.pj_part.specs.Formed.{kinds_at, granule_rows, IsFormed, IsFormedColumn};
ghost use Rattle.pj_part.specs.Agreement.{HoldsRows};
ghost use Rattle.pj_read.specs.Spans.{base_of, in_span, picked, span_rows};
ghost use Rattle.pj_read.specs.Causes.{HasPortCause, TookReads, GaveDamageIn};
ghost use Rattle.pj_read.specs.Layout.{no_mark, IsReadable};
ghost use Rattle.pj_read.specs.declared.fault.ReadPartFault.TheVariants as faults;

use crate::columns::read_columns;
use crate::fault::ReadPartFault;
use pj_index::Span;
use pj_layout::Mark;
use pj_part::{ColumnFile, Part, formed_columns_are_whole, written_columns_are_formed};
use pj_port::{Kept, Port};
use pj_value::Rows;
use std::alloc::Global;

/// Reads the rows of a span of granules of a part without a mask, in these columns of its base, in their order. A
/// column that stands twice among them is read twice.
///
/// Each granule of each column is read once and decoded before the next read, and the first fault or damage that
/// is met ends the call; of this the clauses say how many reads there are. Without columns nothing is read: the
/// rows are counted. It takes time linear in the bytes that are read, and memory for the rows and for the bytes of
/// one granule.
///
/// It fails with `StoreFault` where the port couldn't read, with `Damaged` where a read gave bytes that are no
/// granule of their mark's values, and with `NoMemory` where it is out of memory.
pub fn read_rows<P: Port>(
    alloc: Global,
    port: &mut P,
    part: &Part<P::Blob>,
    columns: &[usize],
    span: Span,
) -> Result<Rows, ReadPartFault>
    requires formed { (table : Table) × TableFits table × IsFormed P.Blob.size table part.now }
    requires unmasked { part.now.mask ≡ None }
    requires columns { All (λ at. at < length (base_of part.now).columns) columns.now }
    requires span { span.from ≤ span.to }
    requires granules { span.to ≤ length (base_of part.now).index.firsts.rows }
    ensures rows { (granularity : ℕ) (key : List ℕ) (rows : KindedRows) → 1 ≤ granularity
        → HoldsRows P.Blob.told granularity key (base_of part.now) rows
        → IfOk result (λ read. read ≡ picked columns.now (in_span granularity span rows)) }

    // These hold too where blobs don't tell their bytes.
    ensures kinds { IfOk result
        (λ read. read.kinds ≡ kinds_at (map (λ file. file.kind) (base_of part.now).columns) columns.now) }
    ensures len { (table : Table) → TableFits table → IsFormed P.Blob.size table part.now
        → IfOk result (λ read. length read.rows ≡ span_rows table.granularity span (base_of part.now).rows) }

    ensures faults { HasPortCause (P.faults port.old) (P.faults port.new) result }
    ensures reads { TookReads (length columns.now * (span.to - span.from))
        (P.reads port.old) (P.reads port.new) result }

    ensures damaged { (column granule at : ℕ) → IsErrOf result (faults.Damaged column granule at)
        → GaveDamageIn (base_of part.now).columns columns.now span column granule at
        (P.reads port.old) (P.reads port.new) (P.last port.new) }
    ensures undamaged { (granularity : ℕ) (key : List ℕ) (rows : KindedRows)
        → HoldsRows P.Blob.told granularity key (base_of part.now) rows
        → (column granule at : ℕ) → IsErrOf result (faults.Damaged column granule at) → ⊥ }
{
    formed_columns_are_whole::<P::Blob>();
    written_columns_are_formed::<P::Blob>();
    let base = &part.base.sorted;
    let files = base.columns.as_slice();
    if columns.is_empty() {
        let len = rows_of_span(files, base.rows, span);
        return Ok(Rows::of_no_columns(alloc, len));
    }
    let read = read_columns(alloc, port, files, columns, span)?;
    Ok(Rows::from_columns(alloc, read)?)
}

/// How many of so many rows are in a span of the granules of these columns.
fn rows_of_span<B: Kept>(files: &[ColumnFile<B>], rows: u64, span: Span) -> usize
    requires some { 0 < length files.now }
    requires readable { AllByRecursion (IsReadable B.size span.to) files.now }
    requires span { span.from ≤ span.to }
    ensures { (granularity : ℕ) → AllByRecursion (IsFormedColumn B.size granularity rows) files.now
        → result ≡ span_rows granularity span rows }
{
    count_rows(files[0].marks.as_slice(), rows, span)
}

/// How many of so many rows are in a span of the granules with these marks: each granule but the last one has as
/// many as the first.
fn count_rows(marks: &[Mark], rows: u64, span: Span) -> usize
    requires span { span.from ≤ span.to }
    requires granules { span.to ≤ length marks.now }
    ensures { (granularity : ℕ) → map (λ m. m.rows) marks.now ≡ granule_rows granularity rows
        → result ≡ span_rows granularity span rows }
{
    let each = first_rows(marks);
    let end = span.to.saturating_mul(each).min(rows as usize);
    end.saturating_sub(span.from.saturating_mul(each))
}

/// How many rows the first granule has, or 0 where there is none.
fn first_rows(marks: &[Mark]) -> usize
    ensures { result ≡ (slice_index_or marks.now 0 no_mark).rows }
{
    match marks.first() {
        Some(mark) => mark.rows as usize,
        None => 0,
    }
}
