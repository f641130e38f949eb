//! SELECT over the parts of a table: of each part all rows are read, in the columns that the query uses.
ghost use Rattle.std.specs.Prelude.{◌≡◌, ℕ, ◌<◌, List, length, map, IsTrue, IfOk, OnOk, IsErrOf};
ghost use Rattle.std.specs.List.{All, AllByRecursion, AllZip};
ghost use Rattle.pj_value.specs.declared.value.Value.{Value};
ghost use Rattle.pj_value.specs.Rows.{HaveKinds};
ghost use Rattle.pj_expr.specs.Tables.{TableFits, kinds_of};
ghost use Rattle.pj_expr.specs.Parts.{PartRecord};
ghost use Rattle.pj_expr.specs.Fits.{FitsQuery};
ghost use Rattle.pj_answer.specs.Answers.{item_kind, Answers};
ghost use Rattle.pj_part.specs.Formed.{kinds_at};
ghost use Rattle.pj_part.specs.Agreement.{Agrees};
ghost use Rattle.pj_exec.specs.Scans.{IsUnmasked, living_rows, columns_used, granules_in};
ghost use Rattle.pj_exec.specs.Causes.{HasPortCause, TookReads, GaveDamageOf};
ghost use Rattle.pj_exec.specs.Layout.{cut_rows, HoldsPart};
ghost use Rattle.pj_exec.specs.declared.fault.SelectFault.TheVariants as faults;

use crate::fault::SelectFault;
use crate::scan::group_parts;
use pj_answer::answers_ignore_the_order;
use pj_expr::{Query, Table};
use pj_narrow::{columns_are_there, columns_of, narrowed, narrowed_queries_answer_alike};
use pj_part::Part;
use pj_port::Port;
use pj_value::Rows;
use std::alloc::Global;

/// The rows of a right answer of a query over the rows of these parts of a table.
///
/// Each granule of each column that the query uses is read once, part by part, and the first fault or damage that
/// is met ends the call; of this the clauses say how many reads there are. Where the query uses no column nothing
/// is read, and the rows are counted. It takes time linear in the bytes that are read, and memory for the used
/// columns of one part and for what the groups of the query hold.
///
/// It fails with `StoreFault` where the port couldn't read, with `Damaged` where a read gave bytes that are no
/// granule of their mark's values, and with `NoMemory` where it is out of memory.
pub fn run_select<P: Port>(
    alloc: Global,
    port: &mut P,
    table: &Table,
    parts: &[Part<P::Blob>],
    query: &Query,
) -> Result<Rows, SelectFault>
    requires table { TableFits table.now }
    requires fits { FitsQuery (kinds_of table.now) query.now }
    requires parts { AllByRecursion (IsUnmasked P.Blob.size table.now) parts.now }
    ensures answers { IsTrue P.Blob.tells → (records : List PartRecord)
        → AllZip (Agrees P.Blob.told P.Blob.size table.now) parts.now records
        → IfOk result (Answers query.now (living_rows table.now records)) }

    // These hold too where blobs don't tell their bytes.
    ensures kinds { IfOk result (λ out. out.kinds ≡ map (item_kind (kinds_of table.now)) query.now.items) }
    ensures faults { HasPortCause (P.faults port.old) (P.faults port.new) result }
    ensures reads { TookReads (granules_in (columns_used table.now query.now) parts.now)
        (P.reads port.old) (P.reads port.new) result }
    ensures damaged { (part column granule at : ℕ) → IsErrOf result (faults.Damaged part column granule at)
        → GaveDamageOf parts.now (columns_used table.now query.now) part column granule at
        (P.reads port.old) (P.reads port.new) (P.last port.new) }

    ensures undamaged { IsTrue P.Blob.tells → (records : List PartRecord)
        → AllZip (Agrees P.Blob.told P.Blob.size table.now) parts.now records
        → (part column granule at : ℕ) → IsErrOf result (faults.Damaged part column granule at) → ⊥ }
{
    columns_are_there();
    narrowed_queries_answer_alike();
    answers_ignore_the_order();
    let columns = columns_of(alloc, query, table.columns.as_slice().len())?;
    let narrow = narrowed(alloc, query, columns.as_slice())?;
    answer_parts(alloc, port, table, parts, columns.as_slice(), &narrow)
}

/// The rows of a right answer of a query over the values that parts of a table have in these columns.
fn answer_parts<P: Port>(
    alloc: Global,
    port: &mut P,
    table: &Table,
    parts: &[Part<P::Blob>],
    columns: &[usize],
    query: &Query,
) -> Result<Rows, SelectFault>
    requires table { TableFits table.now }
    requires parts { AllByRecursion (IsUnmasked P.Blob.size table.now) parts.now }
    requires columns { All (λ at. at < length (kinds_of table.now)) columns.now }
    requires fits { FitsQuery (kinds_at (kinds_of table.now) columns.now) query.now }
    ensures shape { (all : List (List (List Value)))
        → AllZip (HoldsPart P.Blob.told table.now) parts.now all
        → OnOk result (HaveKinds (kinds_at (kinds_of table.now) columns.now)
        (cut_rows table.now columns.now all).rows) }
    ensures answers { (all : List (List (List Value)))
        → AllZip (HoldsPart P.Blob.told table.now) parts.now all
        → IfOk result (Answers query.now (cut_rows table.now columns.now all)) }

    ensures kinds { IfOk result
        (λ out. out.kinds ≡ map (item_kind (kinds_at (kinds_of table.now) columns.now)) query.now.items) }
    ensures faults { HasPortCause (P.faults port.old) (P.faults port.new) result }
    ensures reads { TookReads (granules_in columns.now parts.now)
        (P.reads port.old) (P.reads port.new) result }

    ensures damaged { (part column granule at : ℕ) → IsErrOf result (faults.Damaged part column granule at)
        → GaveDamageOf parts.now columns.now part column granule at
        (P.reads port.old) (P.reads port.new) (P.last port.new) }
    ensures undamaged { (all : List (List (List Value)))
        → AllZip (HoldsPart P.Blob.told table.now) parts.now all
        → (part column granule at : ℕ) → IsErrOf result (faults.Damaged part column granule at) → ⊥ }
{
    let groups = group_parts(alloc, port, table, parts, columns, query)?;
    Ok(groups.answer(query)?)
}
