//! What no clause says: that calls succeed where memory is ample.
use pj_expr::{ColumnDef, LightMode, Table};
use pj_journal::types::Catalog;
use pj_journal::{Actor, Entry, Journal, MoveFault, What};
use pj_value::{Kind, List, NoMemory, Text};
use std::alloc::Global;
use std::test::Fail;

fn table(alloc: Global) -> Result<Table, NoMemory> {
    let mut columns = Vec::new(alloc);
    columns.push(ColumnDef {
        name: Text::new(alloc, b"x")?,
        kind: Kind::Num,
    })?;
    Ok(Table {
        name: Text::new(alloc, b"t")?,
        columns: List::from_vec(columns),
        key: List::from_vec(vec![in alloc; 0usize]?),
        granularity: 8192,
        mode: LightMode::Throw,
    })
}

#[test]
fn a_journal_of_one_entry_is_full_after_it(rt: HostRuntime) -> Result<(), Fail> {
    let mut journal = Journal::new(rt.alloc(), 1);
    journal.reserve()?;
    journal.add(Entry {
        actor: Actor::Session(0),
        line: 1,
        what: What::Refused,
    });
    assert!(rt; journal.reserve() == Err(MoveFault::Full));
    assert!(rt; journal.entries().len() == 1);
    Ok(())
}

#[test]
fn a_table_is_copied_into_the_catalog(rt: HostRuntime) -> Result<(), Fail> {
    let mut catalog = Catalog::new(rt.alloc());
    catalog.add(table(rt.alloc())?.duplicate(rt.alloc())?)?;
    assert!(rt; catalog.tables().len() == 1);
    for held in catalog.tables() {
        assert!(rt; held.name.as_slice() == b"t".as_slice());
        assert!(rt; held.columns.as_slice().len() == 1 && held.key.as_slice().len() == 1);
        assert!(rt; held.kinds(rt.alloc())?.as_slice() == [Kind::Num].as_slice());
    }
    Ok(())
}
