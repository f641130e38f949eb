//! A source and a sink in memory that move a piece at a call, and whose calls fail where they are told to.
ghost use Rattle.std.specs.Prelude.{◌≡◌, ◌↔◌, ℕ, Some, [], ◌++◌, ◌<◌, ◌≤◌, min, length, IfOk, OnErr, IsTrue};
ghost use Rattle.std.specs.Result.{is_err};
ghost use Rattle.std.specs.Io.{ReadsAtMost, WritesAtMost};
ghost use Rattle.std.specs.Io.KnownBytes.{ReadConsumes, WriteAppends};
ghost use Rattle.pj_io.specs.Faults.{Rose};
ghost use Rattle.pj_io.specs.Memory.{is_due, after_call};

use crate::sink::{GiveFault, Sink};
use crate::source::{Failed, Source};
use crate::sure::{SureSink, SureSource};
use std::marker::Model;

// Which calls of an object fail, by their numbers from 1, and how many were made and failed.
#[derive(Debug, Drop)]
struct Schedule {
    fail: Vec<u64>,
    made: u64,
    faults: u64,
}

impl Model for Schedule {
    ghost use Rattle.pj_io.specs.Memory.{Calls};

    ghost Value = { Calls };

    ghost view = { λ s. record { fail = s.fail.items; made = s.made; faults = s.faults } };
}

impl Schedule {
    fn new(fail: Vec<u64>) -> Schedule
        ensures { result ≡ record { fail = fail.items; made = 0; faults = 0 } }
    {
        Schedule {
            fail,
            made: 0,
            faults: 0,
        }
    }

    // Counts one more call, and says whether it fails.
    fn fails_next(&mut self) -> bool
        ensures due { result ≡ is_due self.old }
        ensures call { self.new ≡ after_call self.old }
        ensures later { self.old.faults ≤ self.new.faults }
    {
        self.made = self.made.saturating_add(1);
        let fails = self.fail.as_slice().contains(&self.made);
        if fails {
            self.faults = self.faults.saturating_add(1);
        }
        fails
    }
}

/// A source over bytes in memory. A call that fails leaves the bytes.
#[derive(Debug, Drop)]
pub struct MemorySource {
    source: SureSource,
    piece: usize,
    calls: Schedule,
}

impl Model for MemorySource {
    ghost use Rattle.std.specs.Prelude.{◌≤◌};
    ghost use Rattle.pj_io.specs.Memory.{Supply};

    ghost Value = { Supply };

    ghost view = { λ s. record { left = s.source; piece = s.piece; calls = s.calls } };

    ghost invariant = { λ s. 1 ≤ s.piece };
}

impl MemorySource {
    /// A source of these bytes. A call moves `piece` bytes at most, and `fail` lists the calls that fail, by
    /// their numbers from 1.
    /// Each call looks through the whole list.
    pub fn new(bytes: Vec<u8>, piece: usize, fail: Vec<u64>) -> MemorySource
        requires { 1 ≤ piece }
        ensures left { result.left ≡ bytes.items }
        ensures piece { result.piece ≡ piece }
        ensures calls { result.calls ≡ record { fail = fail.items; made = 0; faults = 0 } }
    {
        MemorySource {
            source: SureSource::new(bytes),
            piece,
            calls: Schedule::new(fail),
        }
    }
}

impl Source for MemorySource {
    ghost left = { λ s. Some s.left };

    ghost faults = { λ s. s.calls.faults };

    fn take(&mut self, into: &mut [u8]) -> Result<usize, Failed>
        ensures bound { ReadsAtMost result into.new }
        ensures bytes { ReadConsumes (Some self.old.left) (Some self.new.left) result into.new }
        ensures later { self.old.calls.faults ≤ self.new.calls.faults }
        ensures failed { OnErr result (Rose self.old.calls.faults self.new.calls.faults) }
        ensures calm { IfOk result (λ _. self.new.calls.faults ≡ self.old.calls.faults) }

        ensures count { IfOk result
            (λ n. n ≡ min (length self.old.left) (min self.old.piece (length into.old))) }
        ensures due { is_err result ≡ is_due self.old.calls }
        ensures calls { self.new.calls ≡ after_call self.old.calls }
        ensures piece { self.new.piece ≡ self.old.piece }
    {
        if self.calls.fails_next() {
            return Err(Failed);
        }
        let room = self.piece.min(into.len());
        self.source.take(&mut into[..room])
    }
}

/// A sink that keeps what it takes in memory. A call that fails takes nothing.
#[derive(Debug, Drop)]
pub struct MemorySink {
    sink: SureSink,
    piece: usize,
    calls: Schedule,
}

impl Model for MemorySink {
    ghost use Rattle.std.specs.Prelude.{◌≤◌};
    ghost use Rattle.pj_io.specs.Memory.{Store};

    ghost Value = { Store };

    ghost view = { λ s. record { taken = s.sink; piece = s.piece; calls = s.calls } };

    ghost invariant = { λ s. 1 ≤ s.piece };
}

impl MemorySink {
    /// A sink that took nothing yet. A call moves `piece` bytes at most, and `fail` lists the calls that
    /// fail, by their numbers from 1.
    /// Each call looks through the whole list. The sink's bytes take the memory of that list's allocator.
    pub fn new(piece: usize, fail: Vec<u64>) -> MemorySink
        requires { 1 ≤ piece }
        ensures taken { result.taken ≡ [] }
        ensures piece { result.piece ≡ piece }
        ensures calls { result.calls ≡ record { fail = fail.items; made = 0; faults = 0 } }
    {
        MemorySink {
            sink: SureSink::new(*fail.allocator()),
            piece,
            calls: Schedule::new(fail),
        }
    }

    /// What the sink took. Takes no memory.
    pub fn bytes(&self) -> &[u8]
        ensures { result.now ≡ self.now.taken }
    {
        self.sink.bytes()
    }
}

impl Sink for MemorySink {
    ghost taken = { λ s. Some s.taken };

    ghost faults = { λ s. s.calls.faults };

    fn give(&mut self, bytes: &[u8]) -> Result<usize, GiveFault>
        ensures bound { WritesAtMost result bytes.now }
        ensures some { IfOk result (λ n. 0 < length bytes.now → 0 < n) }
        ensures bytes { WriteAppends (Some self.old.taken) (Some self.new.taken) result bytes.now }
        ensures later { self.old.calls.faults ≤ self.new.calls.faults }
        ensures failed { result ≡ Err GiveFault.Failed → Rose self.old.calls.faults self.new.calls.faults }
        ensures calm { (result ≡ Err GiveFault.Failed → ⊥)
            → self.new.calls.faults ≡ self.old.calls.faults }

        ensures count { IfOk result (λ n. n ≡ min self.old.piece (length bytes.now)) }
        ensures due { (result ≡ Err GiveFault.Failed) ↔ IsTrue (is_due self.old.calls) }
        ensures calls { self.new.calls ≡ after_call self.old.calls }
        ensures piece { self.new.piece ≡ self.old.piece }
    {
        if self.calls.fails_next() {
            return Err(GiveFault::Failed);
        }
        let room = self.piece.min(bytes.len());
        self.sink.give(&bytes[..room])
    }
}
