//! The parts of a table at one moment.
ghost use Rattle.std.specs.Prelude.{◌≡◌, map};
ghost use Rattle.std.specs.Arc.{arc_value};
ghost use Rattle.pj_partset.specs.Sets.{AreInOrder};

use crate::list::PartList;
use pj_expr::Table;
use pj_part::Part;
use std::marker::Model;
use std::sync::Arc;

/// The parts of a table at one moment, which stay for it. It must be given back to the set that made it: a
/// snapshot can't be dropped.
pub struct Snapshot<B> {
    /// The number of the table.
    pub(crate) number: u32,
    pub(crate) table: Table,
    pub(crate) parts: PartList<B>,
    /// The number of the pin that was made for it.
    pub(crate) pin: u64,
    /// How many entries the journal had.
    pub(crate) place: u32,
}

impl<B> Model for Snapshot<B> {
    ghost use Rattle.pj_partset.specs.Sets.{Seen};

    ghost Value = { Seen B };

    ghost view = { λ s. record { number = s.number; table = s.table; parts = s.parts; pin = s.pin; place = s.place } };

    ghost use Rattle.pj_partset.specs.Sets.{AreInOrder};

    ghost invariant = { λ s. AreInOrder s.parts };
}

impl<B> Snapshot<B> {
    /// The number of the table. Takes no memory.
    pub fn number(&self) -> u32
        ensures { result ≡ self.now.number }
    {
        self.number
    }

    /// The table, as it was defined at that moment. Takes no memory.
    pub fn table(&self) -> &Table
        ensures { result.now ≡ self.now.table }
    {
        &self.table
    }

    /// The parts, by their blocks. Takes no memory.
    pub fn parts(&self) -> &[Arc<Part<B>>]
        ensures parts { map arc_value result.now ≡ self.now.parts }
        ensures order { AreInOrder self.now.parts }
    {
        self.parts.as_slice()
    }
}
