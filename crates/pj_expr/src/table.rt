//! A table as it is defined.
ghost use Rattle.std.specs.Prelude.{◌≡◌, IfOk};
ghost use Rattle.pj_expr.specs.Tables.{kinds_of};

use pj_value::{Kind, List, NoMemory, Text};
use std::alloc::Global;

/// What a lightweight delete does with the projections of the parts that it touches.
#[derive(Clone, Copy, Debug, PartialEq, Eq)]
pub enum LightMode {
    /// The delete is refused where the table has a projection.
    Throw,
    /// The copies of a part are dropped.
    Drop,
    /// The copies of a part are built anew.
    Rebuild,
}

/// A column: its name, and the kind of its values.
#[derive(Debug, Drop)]
pub struct ColumnDef {
    pub name: Text,
    pub kind: Kind,
}

impl ColumnDef {
    /// An equal column. Its name is copied.
    pub fn duplicate(&self, alloc: Global) -> Result<ColumnDef, NoMemory>
        ensures { IfOk result (λ column. column ≡ self.now) }
    {
        let name = self.name.duplicate(alloc)?;
        Ok(ColumnDef {
            name,
            kind: self.kind,
        })
    }
}

/// A table: its name, its columns, the indexes of its key's columns among them in the order of the key, and
/// its settings.
#[derive(Debug, Drop)]
pub struct Table {
    pub name: Text,
    pub columns: List<ColumnDef>,
    pub key: List<usize>,
    /// How many rows a granule has: `index_granularity`, from 1 to 65,536.
    pub granularity: u32,
    /// `lightweight_mutation_projection_mode`.
    pub mode: LightMode,
}

impl Table {
    /// An equal table. Names, columns and key are copied.
    pub fn duplicate(&self, alloc: Global) -> Result<Table, NoMemory>
        ensures { IfOk result (λ table. table ≡ self.now) }
    {
        let name = self.name.duplicate(alloc)?;
        let columns = columns_of(alloc, self.columns.as_slice())?;
        let key = Vec::from_slice(alloc, self.key.as_slice())?;
        Ok(Table {
            name,
            columns,
            key: List::from_vec(key),
            granularity: self.granularity,
            mode: self.mode,
        })
    }

    /// The kinds of the columns, in their order.
    pub fn kinds(&self, alloc: Global) -> Result<Vec<Kind>, NoMemory>
        ensures { IfOk result (λ kinds. kinds.items ≡ kinds_of self.now) }
    {
        let columns = self.columns.as_slice();
        Ok(columns.iter().map(|column| column.kind).collect(alloc)?)
    }
}

fn columns_of(alloc: Global, columns: &[ColumnDef]) -> Result<List<ColumnDef>, NoMemory>
    ensures { IfOk result (λ copy. copy ≡ columns.now) }
{
    let mut copy = Vec::with_capacity(alloc, columns.len())?;
    'columns: for column in columns {
        copy.push(column.duplicate(alloc)?)?;
    }
    Ok(List::from_vec(copy))
}
