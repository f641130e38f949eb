//! Blobs, and the ports that keep and read them.
ghost use Rattle.std.specs.Prelude.{◌≡◌, ℕ, ◌+◌, ◌≤◌, Bool, List, Option, length, slice_range, is_some};
ghost use Rattle.std.specs.Prelude.{IfOk, IfSome, OnOk, OnErr, IsErrOf};
ghost use Rattle.pj_io.specs.Faults.{Rose};
ghost use Rattle.pj_port.specs.Counts.{risen};
ghost use Rattle.pj_port.specs.Reads.{ReadBytes};
ghost use Rattle.pj_port.specs.declared.port.KeepFault.TheVariants as keep_faults;

use pj_io::Failed;
use std::alloc::AllocError;
use thiserror::Error;

/// Why a port kept nothing.
#[derive(Clone, Copy, Debug, PartialEq, Eq, Error)]
pub enum KeepFault {
    /// The port couldn't keep the bytes. Its count of faults says so too.
    #[error("could not keep")]
    Failed,
    /// The call was out of memory.
    #[error("out of memory")]
    NoMemory,
}

impl From<AllocError> for KeepFault {
    ghost from_gives = { λ _ e. e ≡ keep_faults.NoMemory };

    fn from(_e: AllocError) -> KeepFault {
        KeepFault::NoMemory
    }
}

/// A blob: bytes that a port keeps as one. It never changes, so what contracts know of it is a function of
/// the blob alone, whichever port is asked.
pub trait Kept {
    // The bytes, where they are told.
    ghost told: { Self → Option (List ℕ) };

    // How many bytes there are.
    ghost size: { Self → ℕ };

    // Whether blobs of this type tell their bytes: all of them do, or none does.
    ghost tells: { Bool };

    ghost all_or_none: { (blob : Self) → is_some (told blob) ≡ tells };

    ghost told_whole: { (blob : Self) → IfSome (told blob) (λ bytes. length bytes ≡ size blob) };
}

/// Where blobs are kept. Each port of one type reads the blobs of the others of that type.
pub trait Port {
    type Blob: Kept + Send + Sync + Drop;

    // How many calls failed, up to the last u64.
    ghost faults: { Self → ℕ };

    // How many calls of `read` there were, up to the last u64.
    ghost reads: { Self → ℕ };

    // What the last `read` that didn't fail gave, if there was one.
    ghost last: { Self → Option ReadBytes };

    /// Keeps these bytes as a new blob.
    fn keep(&mut self, bytes: &[u8]) -> Result<Self::Blob, KeepFault>
        ensures size { IfOk result (λ blob. Self.Blob.size blob ≡ length bytes.now) }
        ensures told { IfOk result (λ blob. IfSome (Self.Blob.told blob) (λ told. told ≡ bytes.now)) }

        ensures later { faults self.old ≤ faults self.new }
        ensures failed { IsErrOf result KeepFault.Failed → Rose (faults self.old) (faults self.new) }
        ensures calm { (IsErrOf result KeepFault.Failed → ⊥) → faults self.new ≡ faults self.old }

        ensures reads { reads self.new ≡ reads self.old }
        ensures last { last self.new ≡ last self.old };

    /// Fills `into` with the bytes of the blob from the offset `at` on. After a call that fails `into` may
    /// hold anything. Takes no memory.
    fn read(&mut self, blob: &Self::Blob, at: u64, into: &mut [u8]) -> Result<(), Failed>
        requires { at + length into.old ≤ Self.Blob.size blob.now }
        ensures bytes { OnOk result (IfSome (Self.Blob.told blob.now)
            (λ told. into.new ≡ slice_range told at (at + length into.old))) }

        ensures later { faults self.old ≤ faults self.new }
        ensures failed { OnErr result (Rose (faults self.old) (faults self.new)) }
        ensures calm { OnOk result (faults self.new ≡ faults self.old) }

        // A read that fails is counted too.
        ensures reads { reads self.new ≡ risen (reads self.old) 1 }
        ensures last { OnOk result (last self.new ≡ Some (record { at = at; bytes = into.new })) }
        ensures last_stays { OnErr result (last self.new ≡ last self.old) };

    /// Tells the port that nobody will read this blob any more. Takes no memory.
    fn forget(&mut self, blob: &Self::Blob) -> Result<(), Failed>
        ensures later { faults self.old ≤ faults self.new }
        ensures failed { OnErr result (Rose (faults self.old) (faults self.new)) }
        ensures calm { OnOk result (faults self.new ≡ faults self.old) }

        ensures reads { reads self.new ≡ reads self.old }
        ensures last { last self.new ≡ last self.old };
}
