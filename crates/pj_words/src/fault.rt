//! Why the arguments give no wish.
ghost use Rattle.std.specs.Prelude.{◌≡◌};
ghost use Rattle.pj_words.specs.declared.fault.WordsFault.TheVariants as faults;

use pj_value::NoMemory;
use thiserror::Error;

/// Why it isn't known from the arguments whether the text of the history is wanted.
#[derive(Clone, Copy, Debug, PartialEq, Eq, Error)]
pub enum WordsFault {
    /// The arguments aren't taken, or ask the program to say something of itself.
    #[error("the arguments aren't taken")]
    Usage,
    /// Out of memory while they were read. They may be taken or not.
    #[error("out of memory")]
    NoMemory,
}

impl From<NoMemory> for WordsFault {
    ghost from_gives = { λ _ e. e ≡ faults.NoMemory };

    fn from(_e: NoMemory) -> WordsFault {
        WordsFault::NoMemory
    }
}
