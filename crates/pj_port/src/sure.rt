//! A port in memory whose calls never fail, and the blobs of ports in memory.
ghost use Rattle.std.specs.Prelude.{◌≡◌, ℕ, Some, None, Ok, ◌+◌, ◌≤◌, length, slice_range, IsOk, IfOk, OnOk, OnErr};
ghost use Rattle.std.specs.Prelude.{IsErrOf};
ghost use Rattle.pj_io.specs.Faults.{Rose};
ghost use Rattle.pj_port.specs.Counts.{risen};

use crate::port::{KeepFault, Kept, Port};
use pj_io::Failed;
use std::alloc::Global;
use std::marker::Model;
use std::snapshot::Snapshot;

/// A blob of a port in memory, which holds its bytes. Contracts see it as these.
#[derive(Debug, Drop)]
pub struct MemoryBlob {
    bytes: Vec<u8>,
}

impl Model for MemoryBlob {
    ghost use Rattle.std.specs.Prelude.{ℕ, List};

    ghost Value = { List ℕ };

    ghost view = { λ b. b.bytes.items };
}

impl Kept for MemoryBlob {
    ghost use Rattle.std.specs.Prelude.{Some, true, length, refl};

    ghost told = { λ bytes. Some bytes };

    ghost size = { length };

    ghost tells = { true };

    ghost all_or_none = { λ _. refl };

    ghost told_whole = { λ _. refl };
}

// Where the last read stood. It has no bytes of its own: a blob never changes, so its snapshot tells them.
#[derive(Drop)]
#[derive_where(Debug)]
struct LastRead {
    at: u64,
    len: usize,
    #[derive_where(skip)]
    blob: Snapshot<MemoryBlob>,
}

impl Model for LastRead {
    ghost use Rattle.std.specs.Prelude.{◌+◌, slice_range};
    ghost use Rattle.pj_port.specs.Reads.{ReadBytes};

    ghost Value = { ReadBytes };

    ghost view = { λ r. record { at = r.at; bytes = slice_range r.blob.value r.at (r.at + r.len) } };
}

impl LastRead {
    fn of(blob: &MemoryBlob, at: u64, len: usize) -> LastRead
        ensures { result ≡ record { at = at; bytes = slice_range blob.now at (at + len) } }
    {
        LastRead {
            at,
            len,
            blob: Snapshot::of(blob),
        }
    }
}

/// A port that keeps blobs in memory. No call of it fails, but `keep` may be out of memory.
#[derive(Debug, Drop)]
pub struct SurePort {
    alloc: Global,
    reads: u64,
    last: Option<LastRead>,
}

impl Model for SurePort {
    ghost use Rattle.pj_port.specs.Memory.{SureUse};

    ghost Value = { SureUse };

    ghost view = { λ p. record { reads = p.reads; last = p.last } };
}

impl SurePort {
    /// A port that wasn't read yet. Its blobs take their memory of `alloc`.
    pub fn new(alloc: Global) -> SurePort
        ensures { result ≡ record { reads = 0; last = None } }
    {
        SurePort {
            alloc,
            reads: 0,
            last: None,
        }
    }

    /// Counts one more read, and leaves what the last one gave.
    pub(crate) fn count_read(&mut self)
        ensures { self.new ≡ record self.old { reads = risen self.old.reads 1 } }
    {
        self.reads = self.reads.saturating_add(1);
    }
}

impl Port for SurePort {
    type Blob = MemoryBlob;

    ghost faults = { λ _. 0 };

    ghost reads = { λ p. p.reads };

    ghost last = { λ p. p.last };

    /// Copies the bytes.
    fn keep(&mut self, bytes: &[u8]) -> Result<MemoryBlob, KeepFault>
        ensures size { IfOk result (λ blob. length blob ≡ length bytes.now) }
        ensures told { IfOk result (λ blob. blob ≡ bytes.now) }

        ensures later { 0 ≤ 0 }
        ensures failed { IsErrOf result KeepFault.Failed → Rose 0 0 }
        ensures calm { (IsErrOf result KeepFault.Failed → ⊥) → ◌≡◌ {A = ℕ} 0 0 }

        ensures reads { self.new.reads ≡ self.old.reads }
        ensures last { self.new.last ≡ self.old.last }
    {
        let bytes = Vec::from_slice(self.alloc, bytes)?;
        Ok(MemoryBlob { bytes })
    }

    fn read(&mut self, blob: &MemoryBlob, at: u64, into: &mut [u8]) -> Result<(), Failed>
        requires { at + length into.old ≤ length blob.now }
        ensures bytes { OnOk result (into.new ≡ slice_range blob.now at (at + length into.old)) }

        ensures later { 0 ≤ 0 }
        ensures failed { OnErr result (Rose 0 0) }
        ensures calm { OnOk result (◌≡◌ {A = ℕ} 0 0) }

        ensures reads { self.new.reads ≡ risen self.old.reads 1 }
        ensures last { OnOk result (self.new.last ≡ Some (record { at = at; bytes = into.new })) }
        ensures last_stays { OnErr result (self.new.last ≡ self.old.last) }

        ensures sure { IsOk result }
    {
        let from = at as usize;
        into.copy_from_slice(&blob.bytes[from..from + into.len()]);
        self.count_read();
        self.last = Some(LastRead::of(blob, at, into.len()));
        Ok(())
    }

    /// Does nothing: a blob's memory is given back where the blob is dropped.
    fn forget(&mut self, _blob: &MemoryBlob) -> Result<(), Failed>
        ensures later { 0 ≤ 0 }
        ensures failed { OnErr result (Rose 0 0) }
        ensures calm { OnOk result (◌≡◌ {A = ℕ} 0 0) }

        ensures reads { self.new.reads ≡ self.old.reads }
        ensures last { self.new.last ≡ self.old.last }

        ensures sure { IsOk result }
    {
        Ok(())
    }
}
