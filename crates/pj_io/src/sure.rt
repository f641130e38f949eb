//! A source and a sink in memory whose calls never fail.
ghost use Rattle.std.specs.Prelude.{◌≡◌, ℕ, Some, Ok, [], ◌++◌, ◌<◌, ◌≤◌, min, length, IfOk, OnErr};
ghost use Rattle.std.specs.Io.{ReadsAtMost, WritesAtMost};
ghost use Rattle.std.specs.Io.KnownBytes.{ReadConsumes, WriteAppends};
ghost use Rattle.pj_io.specs.Faults.{Rose};

use crate::sink::{GiveFault, Sink};
use crate::source::{Failed, Source};
use std::alloc::Global;
use std::marker::Model;

/// A source over bytes in memory. Contracts see it as the bytes that are left.
#[derive(Debug, Drop)]
pub struct SureSource {
    bytes: Vec<u8>,
    at: usize,
}

impl Model for SureSource {
    ghost use Rattle.std.specs.Prelude.{ℕ, List, drop, length, ◌≤◌};

    ghost Value = { List ℕ };

    ghost view = { λ s. drop s.at s.bytes.items };

    ghost invariant = { λ s. s.at ≤ length s.bytes.items };
}

impl SureSource {
    /// A source of these bytes. Takes no memory.
    pub fn new(bytes: Vec<u8>) -> SureSource
        ensures { result ≡ bytes.items }
    {
        SureSource { bytes, at: 0 }
    }
}

impl Source for SureSource {
    ghost left = { λ s. Some s };

    ghost faults = { λ _. 0 };

    /// Fills `into`, or moves all that is left.
    fn take(&mut self, into: &mut [u8]) -> Result<usize, Failed>
        ensures bound { ReadsAtMost result into.new }
        ensures bytes { ReadConsumes (Some self.old) (Some self.new) result into.new }
        ensures later { 0 ≤ 0 }
        ensures failed { OnErr result (Rose 0 0) }
        ensures calm { IfOk result (λ _. ◌≡◌ {A = ℕ} 0 0) }
        ensures count { result ≡ Ok (min (length self.old) (length into.old)) }
    {
        let rest = &self.bytes[self.at..];
        let count = rest.len().min(into.len());
        into[..count].copy_from_slice(&rest[..count]);
        self.at += count;
        Ok(count)
    }
}

/// A sink that keeps what it takes in memory. Contracts see it as the bytes that it took.
#[derive(Debug, Drop)]
pub struct SureSink {
    bytes: Vec<u8>,
}

impl Model for SureSink {
    ghost use Rattle.std.specs.Prelude.{ℕ, List};

    ghost Value = { List ℕ };

    ghost view = { λ s. s.bytes.items };
}

impl SureSink {
    /// A sink that took nothing yet.
    pub fn new(alloc: Global) -> SureSink
        ensures { result ≡ [] }
    {
        SureSink {
            bytes: Vec::new(alloc),
        }
    }

    /// What the sink took. Takes no memory.
    pub fn bytes(&self) -> &[u8]
        ensures { result.now ≡ self.now }
    {
        self.bytes.as_slice()
    }
}

impl Sink for SureSink {
    ghost taken = { λ s. Some s };

    ghost faults = { λ _. 0 };

    /// Takes all the bytes, or is out of memory.
    fn give(&mut self, bytes: &[u8]) -> Result<usize, GiveFault>
        ensures bound { WritesAtMost result bytes.now }
        ensures some { IfOk result (λ n. 0 < length bytes.now → 0 < n) }
        ensures bytes { WriteAppends (Some self.old) (Some self.new) result bytes.now }
        ensures later { 0 ≤ 0 }
        ensures failed { result ≡ Err GiveFault.Failed → Rose 0 0 }
        ensures calm { (result ≡ Err GiveFault.Failed → ⊥) → ◌≡◌ {A = ℕ} 0 0 }
        ensures count { IfOk result (λ n. n ≡ length bytes.now) }
    {
        match self.bytes.extend_from_slice(bytes) {
            Ok(()) => Ok(bytes.len()),
            Err(_) => Err(GiveFault::NoMemory),
        }
    }
}
