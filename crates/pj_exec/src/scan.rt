//! The rows of parts, a part at a time, go into the groups of a query.
ghost use Rattle.std.specs.Prelude.{◌≡◌, ℕ, ◌<◌, ◌*◌, List, length, map, IfOk, IsErrOf};
ghost use Rattle.std.specs.List.{All, AllByRecursion, AllZip};
ghost use Rattle.pj_value.specs.declared.value.Value.{Value};
ghost use Rattle.pj_value.specs.Rows.{HaveKinds};
ghost use Rattle.pj_expr.specs.declared.table.Table.{Table};
ghost use Rattle.pj_expr.specs.Tables.{TableFits, kinds_of};
ghost use Rattle.pj_expr.specs.Fits.{FitsQuery};
ghost use Rattle.pj_part.specs.Formed.{kinds_at};
ghost use Rattle.pj_read.specs.Spans.{base_of};
ghost use Rattle.pj_read.specs.Causes.{GaveDamageIn};
ghost use Rattle.pj_exec.specs.Scans.{IsUnmasked, granules_of, all_granules, granules_in};
ghost use Rattle.pj_exec.specs.Causes.{HasPortCause, TookReads, GaveDamageOf};
ghost use Rattle.pj_exec.specs.Layout.{cut_to, HoldsPart, StandsForParts};
ghost use Rattle.pj_exec.specs.declared.fault.SelectFault.TheVariants as faults;

use crate::fault::SelectFault;
use pj_expr::{Query, Table};
use pj_group::Groups;
use pj_index::Span;
use pj_part::Part;
use pj_port::Port;
use pj_read::{ReadPartFault, read_rows};
use pj_value::{Kind, NoMemory, Rows};
use std::alloc::Global;

/// The groups of a query over the rows of parts of a table, whose values in these columns the query is about.
pub(crate) fn group_parts<P: Port>(
    alloc: Global,
    port: &mut P,
    table: &Table,
    parts: &[Part<P::Blob>],
    columns: &[usize],
    query: &Query,
) -> Result<Groups, SelectFault>
    requires table { TableFits table.now }
    requires parts { AllByRecursion (IsUnmasked P.Blob.size table.now) parts.now }
    requires columns { All (λ at. at < length (kinds_of table.now)) columns.now }
    requires fits { FitsQuery (kinds_at (kinds_of table.now) columns.now) query.now }
    ensures stands { IfOk result
        (StandsForParts P.Blob.told table.now columns.now query.now parts.now (length parts.now)) }

    ensures faults { HasPortCause (P.faults port.old) (P.faults port.new) result }
    ensures reads { TookReads (granules_in columns.now parts.now)
        (P.reads port.old) (P.reads port.new) result }

    ensures damaged { (part column granule at : ℕ) → IsErrOf result (faults.Damaged part column granule at)
        → GaveDamageOf parts.now columns.now part column granule at
        (P.reads port.old) (P.reads port.new) (P.last port.new) }
    ensures undamaged { (all : List (List (List Value)))
        → AllZip (HoldsPart P.Blob.told table.now) parts.now all
        → (part column granule at : ℕ) → IsErrOf result (faults.Damaged part column granule at) → ⊥ }
{
    let kinds = kinds_in(alloc, table, columns)?;
    let mut groups = Groups::new(alloc, query, kinds.as_slice())?;
    'scan: for index in 0..parts.len() {
        let rows = read_part(alloc, port, index, &parts[index], columns)?;
        groups = groups.add_rows(query, &rows)?;
    }
    Ok(groups)
}

/// The kinds of these columns of a table.
fn kinds_in(alloc: Global, table: &Table, columns: &[usize]) -> Result<Vec<Kind>, NoMemory>
    requires { All (λ at. at < length (kinds_of table.now)) columns.now }
    ensures { IfOk result (λ kinds. kinds.items ≡ kinds_at (kinds_of table.now) columns.now) }
{
    let all = table.columns.as_slice();
    let mut kinds = Vec::with_capacity(alloc, columns.len())?;
    'picks: for at in columns {
        kinds.push(all[*at].kind)?;
    }
    Ok(kinds)
}

/// Reads all rows of a part, which faults name by its index, in some columns.
fn read_part<P: Port>(
    alloc: Global,
    port: &mut P,
    index: usize,
    part: &Part<P::Blob>,
    columns: &[usize],
) -> Result<Rows, SelectFault>
    requires part { (table : Table) × TableFits table × IsUnmasked P.Blob.size table part.now }
    requires columns { All (λ at. at < length (base_of part.now).columns) columns.now }
    ensures rows { (table : Table) (rows : List (List Value)) → TableFits table
        → IsUnmasked P.Blob.size table part.now → HoldsPart P.Blob.told table part.now rows
        → IfOk result (λ read. read.rows ≡ cut_to columns.now rows) }
    ensures kinds { IfOk result
        (λ read. read.kinds ≡ kinds_at (map (λ file. file.kind) (base_of part.now).columns) columns.now) }
    ensures shape { IfOk result (λ read. HaveKinds read.kinds read.rows) }

    ensures faults { HasPortCause (P.faults port.old) (P.faults port.new) result }
    ensures reads { TookReads (length columns.now * granules_of part.now)
        (P.reads port.old) (P.reads port.new) result }

    ensures damaged { (at_part column granule at : ℕ)
        → IsErrOf result (faults.Damaged at_part column granule at)
        → (at_part ≡ index) × GaveDamageIn (base_of part.now).columns columns.now (all_granules part.now)
        column granule at (P.reads port.old) (P.reads port.new) (P.last port.new) }
    ensures undamaged { (table : Table) (rows : List (List Value)) → HoldsPart P.Blob.told table part.now rows
        → (at_part column granule at : ℕ)
        → IsErrOf result (faults.Damaged at_part column granule at) → ⊥ }
{
    let to = part.base.sorted.index.firsts.len();
    match read_rows(alloc, port, part, columns, Span { from: 0, to }) {
        Ok(rows) => {
            let _kinds = rows.kinds();
            Ok(rows)
        }
        Err(ReadPartFault::StoreFault) => Err(SelectFault::StoreFault),
        Err(
            ReadPartFault::Damaged {
                column,
                granule,
                at,
            },
        ) => Err(SelectFault::Damaged {
            part: index,
            column,
            granule,
            at,
        }),
        Err(ReadPartFault::NoMemory) => Err(SelectFault::NoMemory),
    }
}
