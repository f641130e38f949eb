//! The trusted edge: readers and writers of the system as a source and a sink.
ghost use Rattle.std.specs.Prelude.{◌≡◌, ◌≢◌, ◌<◌, ◌≤◌, length, IfOk, OnErr, if◌then◌else◌};
ghost use Rattle.std.specs.Result.{is_err};
ghost use Rattle.std.specs.Io.{ReadsAtMost, WritesAtMost};
ghost use Rattle.std.specs.Io.KnownBytes.{ReadConsumes, WriteAppends};
ghost use Rattle.pj_io.specs.Faults.{raised, Rose};

use crate::sink::{GiveFault, Sink};
use crate::source::{Failed, Source};
use std::io::{ErrorKind, Read, Write};

/// A reader as a source. It tells the bytes that the reader tells.
#[derive(Debug, Drop)]
pub struct ReaderSource<R> {
    inner: R,
    faults: u64,
}

impl<R: Read> ReaderSource<R> {
    /// The reader as it stands, with no fault counted.
    pub fn new(inner: R) -> ReaderSource<R>
        ensures inner { result.inner ≡ inner }
        ensures faults { result.faults ≡ 0 }
    {
        ReaderSource { inner, faults: 0 }
    }
}

impl<R: Read> Source for ReaderSource<R> {
    ghost left = { λ s. R.remaining s.inner };

    ghost faults = { λ s. s.faults };

    /// Reads once, and again where a signal broke in.
    fn take(&mut self, into: &mut [u8]) -> Result<usize, Failed>
        ensures bound { ReadsAtMost result into.new }
        ensures bytes { ReadConsumes (R.remaining self.old.inner)
            (R.remaining self.new.inner) result into.new }
        ensures later { self.old.faults ≤ self.new.faults }
        ensures failed { OnErr result (Rose self.old.faults self.new.faults) }
        ensures calm { IfOk result (λ _. self.new.faults ≡ self.old.faults) }

        ensures exact { self.new.faults
            ≡ (if is_err result then raised self.old.faults else self.old.faults) }
    {
        let result = read_through(&mut self.inner, into);
        if result.is_err() {
            self.faults = self.faults.saturating_add(1);
        }
        result
    }
}

// One read that no signal broke. The turns are counted, since nothing says that signals end.
fn read_through<R: Read>(reader: &mut R, into: &mut [u8]) -> Result<usize, Failed>
    ensures bound { ReadsAtMost result into.new }
    ensures bytes { ReadConsumes (R.remaining reader.old) (R.remaining reader.new) result into.new }
{
    'turns: for _ in 0..u64::MAX {
        match reader.read(into) {
            Ok(count) => return Ok(count),
            Err(e) => {
                if e.kind() != ErrorKind::Interrupted {
                    return Err(Failed);
                }
            }
        }
    }
    Err(Failed)
}

/// A writer as a sink. It tells the bytes that the writer tells. What the writer holds back is flushed by its
/// owner.
#[derive(Debug, Drop)]
pub struct WriterSink<W> {
    inner: W,
    faults: u64,
}

impl<W: Write> WriterSink<W> {
    /// The writer as it stands, with no fault counted.
    pub fn new(inner: W) -> WriterSink<W>
        ensures inner { result.inner ≡ inner }
        ensures faults { result.faults ≡ 0 }
    {
        WriterSink { inner, faults: 0 }
    }

    /// The writer, which is not flushed.
    pub fn into_inner(self) -> W
        ensures { result ≡ self.inner }
    {
        let WriterSink { inner, faults: _ } = self;
        inner
    }
}

impl<W: Write> Sink for WriterSink<W> {
    ghost taken = { λ s. W.contents s.inner };

    ghost faults = { λ s. s.faults };

    /// Writes once, and again where a signal broke in. A writer that takes nothing of some bytes has failed.
    fn give(&mut self, bytes: &[u8]) -> Result<usize, GiveFault>
        ensures bound { WritesAtMost result bytes.now }
        ensures some { IfOk result (λ n. 0 < length bytes.now → 0 < n) }
        ensures bytes { WriteAppends (W.contents self.old.inner)
            (W.contents self.new.inner) result bytes.now }
        ensures later { self.old.faults ≤ self.new.faults }
        ensures failed { result ≡ Err GiveFault.Failed → Rose self.old.faults self.new.faults }
        ensures calm { (result ≡ Err GiveFault.Failed → ⊥) → self.new.faults ≡ self.old.faults }

        ensures exact { self.new.faults
            ≡ (if is_err result then raised self.old.faults else self.old.faults) }
        ensures memory { result ≢ Err GiveFault.NoMemory }
    {
        match write_through(&mut self.inner, bytes) {
            Ok(count) => Ok(count),
            Err(_) => {
                self.faults = self.faults.saturating_add(1);
                Err(GiveFault::Failed)
            }
        }
    }
}

// One write that no signal broke, and that took something.
fn write_through<W: Write>(writer: &mut W, bytes: &[u8]) -> Result<usize, Failed>
    ensures bound { WritesAtMost result bytes.now }
    ensures some { IfOk result (λ n. 0 < length bytes.now → 0 < n) }
    ensures bytes { WriteAppends (W.contents writer.old) (W.contents writer.new) result bytes.now }
{
    'turns: for _ in 0..u64::MAX {
        match writer.write(bytes) {
            Ok(0) if !bytes.is_empty() => return Err(Failed),
            Ok(count) => return Ok(count),
            Err(e) => {
                if e.kind() != ErrorKind::Interrupted {
                    return Err(Failed);
                }
            }
        }
    }
    Err(Failed)
}
