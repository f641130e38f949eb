//! Why rows of a part were not read.
ghost use Rattle.std.specs.Prelude.{◌≡◌};
ghost use Rattle.pj_read.specs.declared.fault.ReadPartFault.TheVariants as faults;

use pj_port::Failed;
use pj_value::NoMemory;
use std::alloc::{AllocError, AllocFailed};
use thiserror::Error;

/// Why rows of a part were not read.
#[derive(Clone, Copy, Debug, PartialEq, Eq, Error)]
pub enum ReadPartFault {
    /// The port couldn't read a granule. Its count of faults says so too.
    #[error("could not read a granule")]
    StoreFault,
    /// The bytes that the port gave last are no granule of the values that a mark tells of.
    #[error("granule {granule} of column {column} is damaged at byte {at}")]
    Damaged {
        /// The column, as the base counts its columns.
        column: usize,
        /// The granule, counted from 0 in its column.
        granule: usize,
        /// The offset of the damage, in bytes from the granule's start.
        at: u64,
    },
    /// The call was out of memory.
    #[error("out of memory")]
    NoMemory,
}

impl From<Failed> for ReadPartFault {
    ghost from_gives = { λ _ e. e ≡ faults.StoreFault };

    fn from(_e: Failed) -> ReadPartFault {
        ReadPartFault::StoreFault
    }
}

impl From<NoMemory> for ReadPartFault {
    ghost from_gives = { λ _ e. e ≡ faults.NoMemory };

    fn from(_e: NoMemory) -> ReadPartFault {
        ReadPartFault::NoMemory
    }
}

impl From<AllocError> for ReadPartFault {
    ghost from_gives = { λ _ e. e ≡ faults.NoMemory };

    fn from(_e: AllocError) -> ReadPartFault {
        ReadPartFault::NoMemory
    }
}

impl<T: Drop> From<AllocFailed<T>> for ReadPartFault {
    ghost from_gives = { λ _ e. e ≡ faults.NoMemory };

    fn from(_e: AllocFailed<T>) -> ReadPartFault {
        ReadPartFault::NoMemory
    }
}
