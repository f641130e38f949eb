//! Sets of live parts, and their snapshots.
ghost use Rattle.std.specs.Prelude.{◌≡◌, ◌+◌, ◌<◌, All, IfOk, OnOk};

use crate::parts::part;
use pj_expr::{LightMode, Table};
use pj_part::Part;
use pj_partset::{PartSet, Swap};
use pj_port::MemoryBlob;
use pj_value::*;
use std::alloc::Global;
use std::sync::Arc;
use std::test::*;

/// A part of one block.
fn of_block(alloc: Global, block: u64) -> Result<Part<MemoryBlob>, NoMemory>
    ensures min { IfOk result (λ part. part.min ≡ block) }
    ensures max { IfOk result (λ part. part.max ≡ block) }
{
    let mut part = part(alloc, [block, block, 0, 0], &[])?;
    part.min = block;
    part.max = block;
    Ok(part)
}

/// Adds a part of this block behind the others.
fn add(alloc: Global, set: &mut PartSet<MemoryBlob>, block: u64) -> Result<(), NoMemory>
    requires { All (λ part. part.max < block) set.old.live }
    ensures { OnOk result (All (λ part. part.max < block + 1) set.new.live) }
{
    let fresh = of_block(alloc, block)?;
    let mut swaps = Vec::new(alloc);
    swaps.push(Swap { fresh })?;
    set.replace(List::from_vec(swaps))
}

/// The first blocks of parts.
fn blocks(alloc: Global, parts: &[Arc<Part<MemoryBlob>>]) -> Result<Vec<u64>, NoMemory> {
    Ok(parts.iter().map(|part| part.min).collect(alloc)?)
}

/// A table of no columns.
fn table(alloc: Global) -> Result<Table, NoMemory> {
    Ok(Table {
        name: Text::new(alloc, b"t")?,
        columns: List::from_vec(Vec::new(alloc)),
        key: List::from_vec(Vec::new(alloc)),
        granularity: 8,
        mode: LightMode::Throw,
    })
}

#[test]
fn a_snapshot_keeps_the_parts_of_its_moment(rt: HostRuntime) -> Result<(), Fail> {
    let alloc = rt.alloc();
    let table = table(alloc)?;
    let mut set = PartSet::new(alloc);
    add(alloc, &mut set, 1)?;
    add(alloc, &mut set, 2)?;
    let snapshot = set.pin(5, &table, 4)?;
    let added = add(alloc, &mut set, 3);
    let kept = blocks(alloc, snapshot.parts());
    let (number, granularity) = (snapshot.number(), snapshot.table().granularity);
    set.unpin(snapshot);
    added?;
    assert!(rt; kept?.as_slice() == [1, 2].as_slice());
    assert!(rt; blocks(alloc, set.parts())?.as_slice() == [1, 2, 3].as_slice());
    assert_eq!(rt; (number, granularity), (5, 8));
    Ok(())
}

#[test]
fn a_set_of_no_parts_can_be_pinned(rt: HostRuntime) -> Result<(), Fail> {
    let alloc = rt.alloc();
    let table = table(alloc)?;
    let mut set: PartSet<MemoryBlob> = PartSet::new(alloc);
    let snapshot = set.pin(0, &table, 0)?;
    let added = add(alloc, &mut set, 1);
    let count = snapshot.parts().len();
    set.unpin(snapshot);
    added?;
    assert_eq!(rt; (count, set.parts().len()), (0, 1));
    Ok(())
}
