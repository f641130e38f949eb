//! The live parts of a table, and the pins of its open snapshots.
ghost use Rattle.std.specs.Prelude.{◌≡◌, ◌==◌, map, filter, not, IfOk, OnOk, OnErr};
ghost use Rattle.std.specs.Arc.{arc_value};
ghost use Rattle.pj_partset.specs.PinLayout.{pinned_in};
ghost use Rattle.pj_partset.specs.Sets.{empty, added, pinned, snapshot_of, unpinned, AreNext, AreInOrder, AreBefore};

use crate::list::PartList;
use crate::snapshot::Snapshot;
use pj_expr::Table;
use pj_part::Part;
use pj_value::{List, NoMemory};
use std::alloc::Global;
use std::marker::Model;
use std::sync::Arc;

/// What comes into a list of live parts in one step.
#[derive(Debug, Drop)]
pub struct Swap<B> {
    pub fresh: Part<B>,
}

/// An open snapshot, as its set knows it.
#[derive(Drop)]
pub(crate) struct Pin<B> {
    pub(crate) number: u64,
    /// The parts that stay for it.
    pub(crate) parts: PartList<B>,
}

/// The live parts of a table, in the order of their blocks, and the pins of its open snapshots.
///
/// The list of parts is shared with snapshots. It is changed in place where no snapshot is open, and copied,
/// part by reference, where one is.
#[derive(Drop)]
pub struct PartSet<B> {
    alloc: Global,
    live: PartList<B>,
    pins: Vec<Pin<B>>,
    /// The number of the next pin.
    next: u64,
}

impl<B> Model for PartSet<B> {
    ghost use Rattle.pj_partset.specs.Sets.{Held};

    ghost Value = { Held B };

    ghost use Rattle.std.specs.Prelude.{map};
    ghost use Rattle.pj_partset.specs.PinLayout.{pinned_in};

    ghost view = { λ s. record { live = s.live; pins = map pinned_in s.pins.items; next = s.next } };

    ghost use Rattle.pj_partset.specs.Sets.{AreInOrder, AreBefore};

    ghost invariant = { λ s. AreInOrder s.live × AreBefore s.next (map pinned_in s.pins.items) };
}

impl<B: Drop> PartSet<B> {
    /// No parts and no pins. Takes no memory.
    pub fn new(alloc: Global) -> PartSet<B>
        ensures { result ≡ empty }
    {
        PartSet {
            alloc,
            live: PartList::new(),
            pins: Vec::new(alloc),
            next: 1,
        }
    }

    /// The live parts, in the order of their blocks. Takes no memory.
    pub fn parts(&self) -> &[Arc<Part<B>>]
        ensures parts { map arc_value result.now ≡ self.now.live }
        ensures order { AreInOrder self.now.live }
    {
        self.live.as_slice()
    }

    /// Adds the fresh part of each swap behind the live ones, all of them or none. Takes amortised constant
    /// time for each where no snapshot is open. What open snapshots keep stays.
    pub fn replace(&mut self, swaps: List<Swap<B>>) -> Result<(), NoMemory>
        requires above { AreNext self.old.live (map (λ s. s.fresh) swaps) }
        ensures done { OnOk result (self.new ≡ added self.old (map (λ s. s.fresh) swaps)) }
        ensures same { OnErr result (self.new ≡ self.old) }
    {
        let fresh = fresh_of(self.alloc, swaps.into_vec())?;
        self.live.append(self.alloc, fresh)?;
        Ok(())
    }

    /// A snapshot of the live parts, with the table's number, the table, and how many entries the journal has.
    /// Copies the table, and no list of parts.
    pub fn pin(&mut self, number: u32, table: &Table, place: u32) -> Result<Snapshot<B>, NoMemory>
        ensures snapshot { IfOk result (λ s. s ≡ snapshot_of self.old number table.now place) }
        ensures pinned { OnOk result (self.new ≡ pinned self.old) }
        ensures same { OnErr result (self.new ≡ self.old) }
        ensures fresh { AreBefore self.old.next self.old.pins }
    {
        let pin = self.next;
        if pin == u64::MAX {
            return Err(NoMemory);
        }
        let table = table.duplicate(self.alloc)?;
        let parts = self.live.share()?;
        let kept = self.live.share()?;
        self.pins.push(Pin {
            number: pin,
            parts: kept,
        })?;
        self.next = pin + 1;
        Ok(Snapshot {
            number,
            table,
            parts,
            pin,
            place,
        })
    }

    /// Takes a snapshot back, and gives up its pin. Takes no memory, and time linear in the number of pins.
    pub fn unpin(&mut self, snapshot: Snapshot<B>)
        ensures { self.new ≡ unpinned self.old snapshot.pin }
    {
        let Snapshot {
            number: _,
            table: _,
            parts: _,
            pin,
            place: _,
        } = snapshot;
        drop_pin(&mut self.pins, pin);
    }
}

/// Gives up the pin of this number.
fn drop_pin<B: Drop>(pins: &mut Vec<Pin<B>>, number: u64)
    ensures { map pinned_in pins.new.items
        ≡ filter (λ p. not (p.number == number)) (map pinned_in pins.old.items) }
{
    pins.retain(|pin| pin.number != number);
}

/// The fresh parts of swaps, to be shared.
fn fresh_of<B: Drop>(alloc: Global, swaps: Vec<Swap<B>>) -> Result<Vec<Arc<Part<B>>>, NoMemory>
    ensures { IfOk result (λ fresh. map arc_value fresh.items ≡ map (λ s. s.fresh) swaps.items) }
{
    let mut fresh = Vec::with_capacity(alloc, swaps.len())?;
    'swaps: for swap in swaps {
        fresh.push(Arc::new(alloc, swap.fresh)?)?;
    }
    Ok(fresh)
}
