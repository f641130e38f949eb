//! The catalog: the tables that there are, in the order of their creation.
ghost use Rattle.std.specs.Prelude.{◌≡◌, ◌<◌, ◌≤◌, [], ◌∷◌, ◌++◌, length, OnOk, OnErr};

use pj_expr::Table;
use pj_value::NoMemory;
use std::alloc::Global;
use std::marker::Model;

/// How many tables there may be.
pub const TABLES: usize = 64;

/// The tables, at most 64, which contracts see as their list.
#[derive(Debug, Drop)]
pub struct Catalog {
    tables: Vec<Table>,
}

impl Model for Catalog {
    ghost use Rattle.std.specs.Prelude.{List};
    ghost use Rattle.pj_expr.specs.declared.table.Table.{Table};

    ghost Value = { List Table };

    ghost view = { λ c. c.tables.items };

    ghost use Rattle.std.specs.Prelude.{◌≤◌, length};

    ghost invariant = { λ c. length c.tables.items ≤ 64 };
}

impl Catalog {
    /// No tables. Takes no memory.
    pub fn new(alloc: Global) -> Catalog
        ensures { result ≡ [] }
    {
        Catalog {
            tables: Vec::new(alloc),
        }
    }

    /// The tables, in the order of their numbers. Takes no memory.
    pub fn tables(&self) -> &[Table]
        ensures tables { result.now ≡ self.now }
        ensures few { length self.now ≤ TABLES }
    {
        self.tables.as_slice()
    }

    /// Adds a table, with the next number.
    pub fn add(&mut self, table: Table) -> Result<(), NoMemory>
        requires room { length self.old < TABLES }
        ensures added { OnOk result (self.new ≡ self.old ++ table ∷ []) }
        ensures same { OnErr result (self.new ≡ self.old) }
    {
        self.tables.push(table)?;
        Ok(())
    }
}
