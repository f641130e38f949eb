//! Whole transfers: all that a source has, and all that a sink is to get.
ghost use Rattle.std.specs.Prelude.{◌≡◌, ◌≢◌, ℕ, ◌<◌, ◌≤◌, List, length, IfOk, IfSome, OnOk, OnErr, IsOk};
ghost use Rattle.std.specs.Io.KnownBytes.{Appends, Consumes, IsAtEnd};
ghost use Rattle.pj_io.specs.Faults.{Rose};
ghost use Rattle.pj_io.specs.Transfers.{AppendsPart, TookTooMuch, TookAtMost};
ghost use Rattle.pj_io.specs.declared.transfer.ReadFault.TheVariants as read_faults;

use crate::sink::{GiveFault, Sink};
use crate::source::{Failed, Source};
use std::alloc::{AllocError, Global};
use thiserror::Error;

/// Why the bytes of a source were not read.
#[derive(Clone, Copy, Debug, PartialEq, Eq, Error)]
pub enum ReadFault {
    /// A call of the source failed.
    #[error("could not read")]
    Failed,
    /// There are more bytes than the limit allows.
    #[error("too large")]
    TooLarge,
    /// Out of memory for the bytes.
    #[error("out of memory")]
    NoMemory,
}

impl From<Failed> for ReadFault {
    ghost from_gives = { λ _ e. e ≡ read_faults.Failed };

    fn from(_e: Failed) -> ReadFault {
        ReadFault::Failed
    }
}

impl From<AllocError> for ReadFault {
    ghost from_gives = { λ _ e. e ≡ read_faults.NoMemory };

    fn from(_e: AllocError) -> ReadFault {
        ReadFault::NoMemory
    }
}

/// The most bytes that `read_all` asks for at once.
const CHUNK: usize = 16 * 1024;

/// Reads until the source ends, and never more than one byte past `limit`: that byte alone tells that there
/// are more.
pub fn read_all<R: Source>(
    alloc: Global,
    source: &mut R,
    limit: usize,
) -> Result<Vec<u8>, ReadFault>
    ensures all { IfOk result (λ v. (length v.items ≤ limit)
        × Consumes (R.left source.old) (R.left source.new) v.items × IsAtEnd (R.left source.new)) }
    ensures large { result ≡ Err ReadFault.TooLarge
        → TookTooMuch limit (R.left source.old) (R.left source.new) }
    ensures small { (result ≡ Err ReadFault.TooLarge → ⊥)
        → TookAtMost limit (R.left source.old) (R.left source.new) }

    // Where the source tells its bytes, these are all of them, and the limit alone decides.
    ensures whole { IfOk result (λ v. IfSome (R.left source.old) (λ xs. v.items ≡ xs)) }
    ensures larger { result ≡ Err ReadFault.TooLarge → IfSome (R.left source.old) (λ xs. limit < length xs) }

    ensures later { R.faults source.old ≤ R.faults source.new }
    ensures failed { result ≡ Err ReadFault.Failed → Rose (R.faults source.old) (R.faults source.new) }
    ensures calm { (result ≡ Err ReadFault.Failed → ⊥) → R.faults source.new ≡ R.faults source.old }
{
    let mut bytes = Vec::new(alloc);
    let mut chunk = [0u8; CHUNK];
    'pieces: loop {
        let allowed = limit - bytes.len();
        let room = allowed.min(CHUNK - 1) + 1;
        let count = source.take(&mut chunk[..room])?;
        if count == 0 {
            return Ok(bytes);
        }
        if count > allowed {
            return Err(ReadFault::TooLarge);
        }
        bytes.extend_from_slice(&chunk[..count])?;
    }
}

/// Hands all the bytes to the sink, piece by piece, and stops at the first call that fails. Takes no memory
/// of its own.
pub fn write_all<W: Sink>(sink: &mut W, bytes: &[u8]) -> Result<(), GiveFault>
    ensures all { OnOk result (Appends (W.taken sink.old) (W.taken sink.new) bytes.now) }
    ensures part { OnErr result (AppendsPart (W.taken sink.old) (W.taken sink.new) bytes.now) }

    ensures later { W.faults sink.old ≤ W.faults sink.new }
    ensures failed { result ≡ Err GiveFault.Failed → Rose (W.faults sink.old) (W.faults sink.new) }
    ensures calm { (result ≡ Err GiveFault.Failed → ⊥) → W.faults sink.new ≡ W.faults sink.old }
{
    let mut rest = bytes;
    'pieces: while !rest.is_empty() {
        let count = sink.give(rest)?;
        rest = &rest[count..];
    }
    Ok(())
}
