//! A port in memory whose calls fail where they are told to.
ghost use Rattle.std.specs.Prelude.{◌≡◌, ◌↔◌, Some, None, ◌+◌, ◌≤◌, length, slice_range, IfOk, OnOk, OnErr, IsTrue};
ghost use Rattle.std.specs.Prelude.{IsErrOf, is_err};
ghost use Rattle.pj_io.specs.Faults.{Rose};
ghost use Rattle.pj_io.specs.Memory.{is_due, after_call};
ghost use Rattle.pj_port.specs.Counts.{risen};

use crate::port::{KeepFault, Port};
use crate::sure::{MemoryBlob, SurePort};
use pj_io::Failed;
use std::marker::Model;

/// A port that keeps blobs in memory, and some of whose calls fail. A call that fails has kept and given
/// nothing.
#[derive(Debug, Drop)]
pub struct MemoryPort {
    port: SurePort,
    fail: Vec<u64>,
    made: u64,
    faults: u64,
}

impl Model for MemoryPort {
    ghost use Rattle.pj_port.specs.Memory.{MemoryUse};

    ghost Value = { MemoryUse };

    ghost view = { λ p. record {
      calls = record { fail = p.fail.items; made = p.made; faults = p.faults };
      reads = p.port.reads;
      last = p.port.last;
    } };
}

impl MemoryPort {
    /// A port that wasn't called yet. `fail` lists the calls that fail, by their numbers from 1 over all
    /// calls of `keep`, `read` and `forget`.
    /// Each call looks through the whole list. The blobs take the memory of that list's allocator.
    pub fn new(fail: Vec<u64>) -> MemoryPort
        ensures calls { result.calls ≡ record { fail = fail.items; made = 0; faults = 0 } }
        ensures reads { result.reads ≡ 0 }
        ensures last { result.last ≡ None }
    {
        MemoryPort {
            port: SurePort::new(*fail.allocator()),
            fail,
            made: 0,
            faults: 0,
        }
    }

    // Counts one more call, and says whether it fails.
    fn fails_next(&mut self) -> bool
        ensures due { result ≡ is_due self.old.calls }
        ensures call { self.new ≡ record self.old { calls = after_call self.old.calls } }
        ensures later { self.old.calls.faults ≤ self.new.calls.faults }
    {
        self.made = self.made.saturating_add(1);
        let fails = self.fail.as_slice().contains(&self.made);
        if fails {
            self.faults = self.faults.saturating_add(1);
        }
        fails
    }
}

impl Port for MemoryPort {
    type Blob = MemoryBlob;

    ghost faults = { λ p. p.calls.faults };

    ghost reads = { λ p. p.reads };

    ghost last = { λ p. p.last };

    fn keep(&mut self, bytes: &[u8]) -> Result<MemoryBlob, KeepFault>
        ensures size { IfOk result (λ blob. length blob ≡ length bytes.now) }
        ensures told { IfOk result (λ blob. blob ≡ bytes.now) }

        ensures later { self.old.calls.faults ≤ self.new.calls.faults }
        ensures failed { IsErrOf result KeepFault.Failed
            → Rose self.old.calls.faults self.new.calls.faults }
        ensures calm { (IsErrOf result KeepFault.Failed → ⊥)
            → self.new.calls.faults ≡ self.old.calls.faults }

        ensures reads { self.new.reads ≡ self.old.reads }
        ensures last { self.new.last ≡ self.old.last }

        ensures due { (IsErrOf result KeepFault.Failed) ↔ IsTrue (is_due self.old.calls) }
        ensures calls { self.new.calls ≡ after_call self.old.calls }
    {
        if self.fails_next() {
            return Err(KeepFault::Failed);
        }
        self.port.keep(bytes)
    }

    fn read(&mut self, blob: &MemoryBlob, at: u64, into: &mut [u8]) -> Result<(), Failed>
        requires { at + length into.old ≤ length blob.now }
        ensures bytes { OnOk result (into.new ≡ slice_range blob.now at (at + length into.old)) }

        ensures later { self.old.calls.faults ≤ self.new.calls.faults }
        ensures failed { OnErr result (Rose self.old.calls.faults self.new.calls.faults) }
        ensures calm { OnOk result (self.new.calls.faults ≡ self.old.calls.faults) }

        ensures reads { self.new.reads ≡ risen self.old.reads 1 }
        ensures last { OnOk result (self.new.last ≡ Some (record { at = at; bytes = into.new })) }
        ensures last_stays { OnErr result (self.new.last ≡ self.old.last) }

        ensures due { is_err result ≡ is_due self.old.calls }
        ensures calls { self.new.calls ≡ after_call self.old.calls }
    {
        if self.fails_next() {
            self.port.count_read();
            return Err(Failed);
        }
        self.port.read(blob, at, into)
    }

    /// Does nothing but to count: a blob's memory is given back where the blob is dropped.
    fn forget(&mut self, blob: &MemoryBlob) -> Result<(), Failed>
        ensures later { self.old.calls.faults ≤ self.new.calls.faults }
        ensures failed { OnErr result (Rose self.old.calls.faults self.new.calls.faults) }
        ensures calm { OnOk result (self.new.calls.faults ≡ self.old.calls.faults) }

        ensures reads { self.new.reads ≡ self.old.reads }
        ensures last { self.new.last ≡ self.old.last }

        ensures due { is_err result ≡ is_due self.old.calls }
        ensures calls { self.new.calls ≡ after_call self.old.calls }
    {
        if self.fails_next() {
            return Err(Failed);
        }
        self.port.forget(blob)
    }
}
