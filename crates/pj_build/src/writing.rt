//! Sorted rows are written through a port, a column a blob.
ghost use Rattle.std.specs.Prelude.{◌≡◌, ◌<◌, ◌≤◌, length, IfOk, IsErrOf};
ghost use Rattle.std.specs.List.{All};
ghost use Rattle.pj_io.specs.Faults.{Rose};
ghost use Rattle.pj_part.specs.Agreement.{columns_of};
ghost use Rattle.pj_build.specs.declared.fault.BuildFault.TheVariants as faults;
ghost use Rattle.pj_build.specs.Written.{IsWrittenColumn, AreWrittenColumns, IsWritten};

use crate::fault::BuildFault;
use crate::keys::key_marks;
use pj_layout::write_column;
use pj_part::{ColumnFile, Sorted};
use pj_port::Port;
use pj_value::{Column, List, Rows};
use std::alloc::Global;

/// Writes rows that are sorted by these columns, at least one, as granules of `granularity` rows each. It calls
/// `keep` once for each column, in their order.
pub(crate) fn write_rows<P: Port>(
    alloc: Global,
    port: &mut P,
    rows: &Rows,
    key: &[usize],
    granularity: u32,
) -> Result<Sorted<P::Blob>, BuildFault>
    requires keyed { 1 ≤ length key.now }
    requires within { All (λ column. column < length rows.now.kinds) key.now }
    requires some { 1 ≤ granularity }
    requires few { granularity ≤ 65536 }
    ensures written { IfOk result (IsWritten P.Blob.told P.Blob.size granularity key.now rows.now) }

    ensures later { P.faults port.old ≤ P.faults port.new }
    ensures failed { IsErrOf result faults.StoreFault → Rose (P.faults port.old) (P.faults port.new) }
    ensures calm { (IsErrOf result faults.StoreFault → ⊥) → P.faults port.new ≡ P.faults port.old }

    ensures reads { P.reads port.new ≡ P.reads port.old }
    ensures last { P.last port.new ≡ P.last port.old }
{
    let index = key_marks(alloc, rows, key, granularity)?;
    let columns = write_columns(alloc, port, rows, granularity)?;
    Ok(Sorted {
        rows: rows.len() as u64,
        index,
        columns: List::from_vec(columns),
    })
}

/// Writes each column of the rows, in their order.
fn write_columns<P: Port>(
    alloc: Global,
    port: &mut P,
    rows: &Rows,
    granularity: u32,
) -> Result<Vec<ColumnFile<P::Blob>>, BuildFault>
    requires some { 1 ≤ granularity }
    requires few { granularity ≤ 65536 }
    ensures written { IfOk result
        (λ files. AreWrittenColumns P.Blob.told P.Blob.size granularity files.items (columns_of rows.now)) }

    ensures later { P.faults port.old ≤ P.faults port.new }
    ensures failed { IsErrOf result faults.StoreFault → Rose (P.faults port.old) (P.faults port.new) }
    ensures calm { (IsErrOf result faults.StoreFault → ⊥) → P.faults port.new ≡ P.faults port.old }

    ensures reads { P.reads port.new ≡ P.reads port.old }
    ensures last { P.last port.new ≡ P.last port.old }
{
    let mut files = Vec::new(alloc);
    'columns: for at in 0..rows.kinds().len() {
        files.push(write_file(alloc, port, rows.column(at), granularity)?)?;
    }
    Ok(files)
}

/// Writes a column, and keeps its granules as one blob.
fn write_file<P: Port>(
    alloc: Global,
    port: &mut P,
    column: &Column,
    granularity: u32,
) -> Result<ColumnFile<P::Blob>, BuildFault>
    requires some { 1 ≤ granularity }
    requires few { granularity ≤ 65536 }
    ensures written { IfOk result
        (λ file. IsWrittenColumn P.Blob.told P.Blob.size granularity file column.now) }

    ensures later { P.faults port.old ≤ P.faults port.new }
    ensures failed { IsErrOf result faults.StoreFault → Rose (P.faults port.old) (P.faults port.new) }
    ensures calm { (IsErrOf result faults.StoreFault → ⊥) → P.faults port.new ≡ P.faults port.old }

    ensures reads { P.reads port.new ≡ P.reads port.old }
    ensures last { P.last port.new ≡ P.last port.old }
{
    let written = write_column(alloc, column, granularity)?;
    let blob = port.keep(written.bytes.as_slice())?;
    Ok(ColumnFile {
        blob,
        kind: column.kind(),
        marks: written.marks,
    })
}
