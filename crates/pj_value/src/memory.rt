//! The refusals of this crate. Out of memory has a type of its own, since every crate answers it.
ghost use Rattle.std.specs.Prelude.{◌≡◌};
ghost use Rattle.pj_value.specs.declared.memory.PushFault.TheVariants as push_faults;
ghost use Rattle.pj_value.specs.declared.memory.UnescapeFault.TheVariants as unescape_faults;

use std::alloc::{AllocError, AllocFailed};
use thiserror::Error;

/// The call is out of memory. It may come from any call that allocates, and says nothing more.
#[derive(Clone, Copy, Debug, PartialEq, Eq, Error)]
#[error("out of memory")]
pub struct NoMemory;

impl From<AllocError> for NoMemory {
    fn from(_e: AllocError) -> NoMemory {
        NoMemory
    }
}

impl<T: Drop> From<AllocFailed<T>> for NoMemory {
    fn from(_e: AllocFailed<T>) -> NoMemory {
        NoMemory
    }
}

/// Why a value or a row was not appended. What it was to be appended to is as before.
#[derive(Clone, Copy, Debug, PartialEq, Eq, Error)]
pub enum PushFault {
    /// The kinds of what was handed in are not those that stand there.
    #[error("wrong shape")]
    WrongShape,
    /// It is out of memory.
    #[error("out of memory")]
    NoMemory,
}

impl From<NoMemory> for PushFault {
    ghost from_gives = { λ _ e. e ≡ push_faults.NoMemory };

    fn from(_e: NoMemory) -> PushFault {
        PushFault::NoMemory
    }
}

impl From<AllocError> for PushFault {
    ghost from_gives = { λ _ e. e ≡ push_faults.NoMemory };

    fn from(_e: AllocError) -> PushFault {
        PushFault::NoMemory
    }
}

impl<T: Drop> From<AllocFailed<T>> for PushFault {
    ghost from_gives = { λ _ e. e ≡ push_faults.NoMemory };

    fn from(_e: AllocFailed<T>) -> PushFault {
        PushFault::NoMemory
    }
}

/// Why bytes were not read as a text.
#[derive(Clone, Copy, Debug, PartialEq, Eq, Error)]
pub enum UnescapeFault {
    /// At this offset, counted from 0, is a backslash with no letter behind it that may be there.
    #[error("bad escape at byte {at}")]
    BadEscape { at: usize },
    /// Out of memory for the text. The bytes may spell one or not.
    #[error("out of memory")]
    NoMemory,
}

impl<T: Drop> From<AllocFailed<T>> for UnescapeFault {
    ghost from_gives = { λ _ e. e ≡ unescape_faults.NoMemory };

    fn from(_e: AllocFailed<T>) -> UnescapeFault {
        UnescapeFault::NoMemory
    }
}
