//! The draft of a part, built from rows of its table.
ghost use Rattle.std.specs.Prelude.{◌≡◌, ◌≤◌, IfOk, IsErrOf};
ghost use Rattle.pj_io.specs.Faults.{Rose};
ghost use Rattle.pj_value.specs.Order.{IsSortedBy};
ghost use Rattle.pj_expr.specs.Tables.{TableFits, kinds_of};
ghost use Rattle.pj_build.specs.declared.fault.BuildFault.TheVariants as faults;
ghost use Rattle.pj_build.specs.Living.{AgreesLiving};
ghost use Rattle.pj_build.specs.Written.{fresh_draft};

use crate::fault::BuildFault;
use crate::writing::write_rows;
use pj_expr::Table;
use pj_part::{
    MaskChange, PartDraft, Sorted, indexes_of_keys_are_formed, written_columns_are_formed,
};
use pj_port::Port;
use pj_value::{List, NoMemory, Rows};
use std::alloc::Global;

/// Builds the draft of a part that has these rows of a table, all of them living, as an INSERT does.
///
/// The rows are sorted once, and stay as they are for the caller. With n rows that takes n times the logarithm
/// of n comparisons, and two copies of each column. Then each column is written as one blob: the port's `keep` is
/// called once for each, in the order of the columns; no clause counts these calls. After a fault the port still
/// has the blobs of the columns before it, which nothing names.
///
/// It fails with `StoreFault` where the port couldn't keep a column, and with `NoMemory` where it is out of
/// memory.
pub fn build<P: Port>(
    alloc: Global,
    port: &mut P,
    table: &Table,
    rows: &Rows,
) -> Result<PartDraft<P::Blob>, BuildFault>
    requires table { TableFits table.now }
    requires kinds { rows.now.kinds ≡ kinds_of table.now }
    ensures agrees { IfOk result (AgreesLiving P.Blob.told P.Blob.size table.now rows.now.rows) }

    ensures later { P.faults port.old ≤ P.faults port.new }
    ensures failed { IsErrOf result faults.StoreFault → Rose (P.faults port.old) (P.faults port.new) }
    ensures calm { (IsErrOf result faults.StoreFault → ⊥) → P.faults port.new ≡ P.faults port.old }

    // Nothing is read.
    ensures reads { P.reads port.new ≡ P.reads port.old }
    ensures last { P.last port.new ≡ P.last port.old }
{
    written_columns_are_formed::<P::Blob>();
    indexes_of_keys_are_formed();
    let key = table.key.as_slice();
    let sorted = sorted_rows(rows, key)?;
    // A caller learns here that the rows have these kinds.
    let _kinds = sorted.kinds();
    let base = write_rows(alloc, port, &sorted, key, table.granularity)?;
    Ok(draft_of(alloc, base))
}

/// The rows in the order of their values in these columns. Equal ones keep their order.
fn sorted_rows(rows: &Rows, key: &[usize]) -> Result<Rows, NoMemory>
    ensures sorted { IfOk result (λ sorted. IsSortedBy key.now rows.now.rows sorted.rows) }
    ensures kinds { IfOk result (λ sorted. sorted.kinds ≡ rows.now.kinds) }
{
    let mut sorted = rows.duplicate()?;
    sorted.sort_by(key)?;
    Ok(sorted)
}

/// A draft that has this base, and nothing else.
fn draft_of<B>(alloc: Global, base: Sorted<B>) -> PartDraft<B>
    ensures { result ≡ fresh_draft base }
{
    PartDraft {
        base: Some(base),
        mask: MaskChange::Same,
        kept: List::from_vec(Vec::new(alloc)),
        built: List::from_vec(Vec::new(alloc)),
    }
}
