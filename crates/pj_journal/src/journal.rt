//! The journal: the one history that is kept, with room that is made before an entry is added.
ghost use Rattle.std.specs.Prelude.{◌≡◌, ◌+◌, ◌^◌, ◌≤◌, ◌↔◌, [], ◌∷◌, ◌++◌, ◌<◌, length, OnOk, OnErr};
ghost use Rattle.pj_journal.specs.Log.{Log, IsFull, empty_log};
ghost use Rattle.pj_journal.specs.declared.journal.MoveFault.TheVariants as faults;

use crate::entry::Entry;
use pj_value::NoMemory;
use std::alloc::{AllocError, Global};
use std::marker::Model;
use thiserror::Error;

/// Why a move could not be made.
#[derive(Clone, Copy, Debug, PartialEq, Eq, Error)]
pub enum MoveFault {
    /// The journal holds as many entries as its limit says.
    #[error("the journal is full")]
    Full,
    /// Out of memory for one more entry.
    #[error("out of memory")]
    NoMemory,
}

impl From<AllocError> for MoveFault {
    ghost from_gives = { λ _ e. e ≡ faults.NoMemory };

    fn from(_e: AllocError) -> MoveFault {
        MoveFault::NoMemory
    }
}

impl From<NoMemory> for MoveFault {
    ghost from_gives = { λ _ e. e ≡ faults.NoMemory };

    fn from(_e: NoMemory) -> MoveFault {
        MoveFault::NoMemory
    }
}

/// The history, which only grows. Contracts see its entries, its limit, and for how many more entries room
/// was made.
#[derive(Debug, Drop)]
pub struct Journal {
    entries: Vec<Entry>,
    /// How many entries there may be. No call changes it.
    limit: u32,
    /// For how many more entries room was made: 0 or 1.
    spare: u8,
}

impl Model for Journal {
    ghost use Rattle.std.specs.Prelude.{◌+◌, ◌≤◌, length, vec_len, vec_capacity};
    ghost use Rattle.pj_journal.specs.Log.{Log};

    ghost Value = { Log };

    ghost view = { λ j. record { entries = j.entries.items; limit = j.limit; spare = j.spare } };

    ghost invariant = { λ j. (vec_len j.entries + j.spare ≤ vec_capacity j.entries)
        × (vec_len j.entries + j.spare ≤ j.limit) };
}

impl Journal {
    /// No entries, for at most `limit`. Takes no memory.
    pub fn new(alloc: Global, limit: u32) -> Journal
        ensures { result ≡ empty_log limit }
    {
        Journal {
            entries: Vec::new(alloc),
            limit,
            spare: 0,
        }
    }

    /// Makes room for one more entry, so that `add` can't fail. Takes amortised constant time.
    pub fn reserve(&mut self) -> Result<(), MoveFault>
        ensures room { OnOk result (1 ≤ self.new.spare) }
        ensures below { OnOk result (length self.old.entries < self.old.limit) }
        ensures full { (result ≡ Err MoveFault.Full) ↔ IsFull self.old }
        ensures entries { self.new.entries ≡ self.old.entries }
        ensures limit { self.new.limit ≡ self.old.limit }
        ensures same { OnErr result (self.new ≡ self.old) }
    {
        if self.entries.len() >= self.limit as usize {
            return Err(MoveFault::Full);
        }
        self.entries.reserve(1)?;
        self.spare = 1;
        Ok(())
    }

    /// Adds the entry behind the others. Room was made before, so nothing can fail here, and it takes no
    /// memory.
    pub fn add(&mut self, entry: Entry)
        requires room { 1 ≤ self.old.spare }
        ensures grown { self.new.entries ≡ self.old.entries ++ entry ∷ [] }
        ensures limit { self.new.limit ≡ self.old.limit }
    {
        self.spare = 0;
        self.entries.push(entry).unwrap();
    }

    /// The entries, in their order. Takes no memory.
    pub fn entries(&self) -> &[Entry]
        ensures entries { result.now ≡ self.now.entries }
        ensures few { length self.now.entries ≤ self.now.limit }
        ensures small { self.now.limit < 2 ^ 32 }
    {
        // A number behind a reference is known to be in its type's range once it is read: so `small` holds.
        let _limit = self.limit;
        self.entries.as_slice()
    }
}
