//! Where bytes come from.
ghost use Rattle.std.specs.Prelude.{◌≡◌, ℕ, List, Option, ◌≤◌, IfOk, OnErr};
ghost use Rattle.std.specs.Io.{ReadsAtMost};
ghost use Rattle.std.specs.Io.KnownBytes.{ReadConsumes};
ghost use Rattle.pj_io.specs.Faults.{Rose};

use thiserror::Error;

/// A source couldn't read. Its count of faults says so too.
#[derive(Clone, Copy, Debug, PartialEq, Eq, Error)]
#[error("could not read")]
pub struct Failed;

/// A source of bytes. It ends with a call that gives no byte though there was room.
pub trait Source {
    // The bytes that are still to come, where the source tells them.
    ghost left: { Self → Option (List ℕ) };

    // How many calls failed, up to the last u64.
    ghost faults: { Self → ℕ };

    /// Moves bytes to a prefix of `into` and says how many. A call that fails moves none.
    fn take(&mut self, into: &mut [u8]) -> Result<usize, Failed>
        ensures bound { ReadsAtMost result into.new }
        ensures bytes { ReadConsumes (left self.old) (left self.new) result into.new }
        ensures later { faults self.old ≤ faults self.new }
        ensures failed { OnErr result (Rose (faults self.old) (faults self.new)) }
        ensures calm { IfOk result (λ _. faults self.new ≡ faults self.old) };
}
