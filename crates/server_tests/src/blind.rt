//! A port whose blobs don't tell their bytes, and one of whose reads gives a byte that was not kept.
ghost use Rattle.std.specs.Prelude.{◌≡◌, length};

use pj_port::{Failed, KeepFault, Kept, MemoryBlob, Port, SurePort};
use std::alloc::Global;
use std::marker::Model;

/// A blob that doesn't tell its bytes. Contracts see it as those that were kept.
#[derive(Debug, Drop)]
pub(crate) struct BlindBlob {
    blob: MemoryBlob,
}

impl Model for BlindBlob {
    ghost use Rattle.std.specs.Prelude.{ℕ, List};

    ghost Value = { List ℕ };

    ghost view = { λ b. b.blob };
}

impl Kept for BlindBlob {
    ghost use Rattle.std.specs.Prelude.{None, false, refl};

    ghost told = { λ _. None };

    ghost size = { length };

    ghost tells = { false };

    ghost all_or_none = { λ _. refl };

    ghost told_whole = { λ _. tt };
}

/// A byte that is given changed: by the read of this number, counted from 1, at this offset of what it gives,
/// and how. Where the read gives fewer bytes, none is changed.
#[derive(Clone, Copy, Debug)]
pub(crate) struct Change {
    pub(crate) read: u64,
    pub(crate) at: usize,
    pub(crate) xor: u8,
}

/// What a read gave.
#[derive(Debug, Drop)]
struct Given {
    at: u64,
    bytes: Vec<u8>,
}

impl Model for Given {
    ghost use Rattle.pj_port.specs.Reads.{ReadBytes};

    ghost Value = { ReadBytes };

    ghost view = { λ g. record { at = g.at; bytes = g.bytes.items } };
}

/// A port in memory that changes one byte of one read, and else gives what was kept. A call fails only where
/// it is out of memory.
#[derive(Debug, Drop)]
pub(crate) struct BlindPort {
    alloc: Global,
    port: SurePort,
    change: Change,
    reads: u64,
    faults: u64,
    last: Option<Given>,
}

impl BlindPort {
    /// A port that wasn't called yet.
    pub(crate) fn new(alloc: Global, change: Change) -> BlindPort {
        BlindPort {
            alloc,
            port: SurePort::new(alloc),
            change,
            reads: 0,
            faults: 0,
            last: None,
        }
    }

    /// Changes the byte of this read, if it is the one.
    fn change_bytes(&self, into: &mut [u8])
        ensures { length into.new ≡ length into.old }
    {
        if self.reads != self.change.read {
            return;
        }
        if let Some(byte) = into.get_mut(self.change.at) {
            *byte ^= self.change.xor;
        }
    }
}

impl Port for BlindPort {
    type Blob = BlindBlob;

    ghost faults = { λ p. p.faults };

    ghost reads = { λ p. p.reads };

    ghost last = { λ p. p.last };

    fn keep(&mut self, bytes: &[u8]) -> Result<BlindBlob, KeepFault> {
        let blob = self.port.keep(bytes)?;
        Ok(BlindBlob { blob })
    }

    fn read(&mut self, blob: &BlindBlob, at: u64, into: &mut [u8]) -> Result<(), Failed> {
        self.reads = self.reads.saturating_add(1);
        self.port.read(&blob.blob, at, into).unwrap();
        self.change_bytes(into);
        match Vec::from_slice(self.alloc, into) {
            Ok(bytes) => {
                self.last = Some(Given { at, bytes });
                Ok(())
            }
            Err(_) => {
                self.faults = self.faults.saturating_add(1);
                Err(Failed)
            }
        }
    }

    fn forget(&mut self, blob: &BlindBlob) -> Result<(), Failed> {
        self.port.forget(&blob.blob).unwrap();
        Ok(())
    }
}
