//! Where bytes go.
ghost use Rattle.std.specs.Prelude.{◌≡◌, ℕ, List, Option, ◌<◌, ◌≤◌, length, IfOk};
ghost use Rattle.std.specs.Io.{WritesAtMost};
ghost use Rattle.std.specs.Io.KnownBytes.{WriteAppends};
ghost use Rattle.pj_io.specs.Faults.{Rose};

use thiserror::Error;

/// Why a sink took nothing.
#[derive(Clone, Copy, Debug, PartialEq, Eq, Error)]
pub enum GiveFault {
    /// The sink couldn't write. Its count of faults says so too.
    #[error("could not write")]
    Failed,
    /// The call was out of memory.
    #[error("out of memory")]
    NoMemory,
}

/// A sink of bytes.
pub trait Sink {
    // The bytes that were taken so far, where the sink tells them.
    ghost taken: { Self → Option (List ℕ) };

    // How many calls failed, up to the last u64.
    ghost faults: { Self → ℕ };

    /// Takes a prefix of `bytes` and says how long it is. A call that fails takes none.
    fn give(&mut self, bytes: &[u8]) -> Result<usize, GiveFault>
        ensures bound { WritesAtMost result bytes.now }
        ensures some { IfOk result (λ n. 0 < length bytes.now → 0 < n) }
        ensures bytes { WriteAppends (taken self.old) (taken self.new) result bytes.now }
        ensures later { faults self.old ≤ faults self.new }
        ensures failed { result ≡ Err GiveFault.Failed → Rose (faults self.old) (faults self.new) }
        ensures calm { (result ≡ Err GiveFault.Failed → ⊥) → faults self.new ≡ faults self.old };
}
