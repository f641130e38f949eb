//! Why a SELECT has no rows.
ghost use Rattle.std.specs.Prelude.{◌≡◌};
ghost use Rattle.pj_exec.specs.declared.fault.SelectFault.TheVariants as faults;

use pj_value::NoMemory;
use thiserror::Error;

/// Why a SELECT has no rows.
#[derive(Clone, Copy, Debug, PartialEq, Eq, Error)]
pub enum SelectFault {
    /// The port couldn't read a granule. Its count of faults says so too.
    #[error("could not read a granule")]
    StoreFault,
    /// The bytes that the port gave last are no granule of the values that a mark tells of.
    #[error("granule {granule} of column {column} of part {part} is damaged at byte {at}")]
    Damaged {
        /// The part, by its index among the parts.
        part: usize,
        /// The column, as the part's base counts its columns.
        column: usize,
        /// The granule, counted from 0 in its column.
        granule: usize,
        /// The offset of the damage, in bytes from the granule's start.
        at: u64,
    },
    /// The call was out of memory.
    #[error("out of memory")]
    NoMemory,
}

impl From<NoMemory> for SelectFault {
    ghost from_gives = { λ _ e. e ≡ faults.NoMemory };

    fn from(_e: NoMemory) -> SelectFault {
        SelectFault::NoMemory
    }
}
