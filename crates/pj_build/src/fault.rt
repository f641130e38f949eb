//! Why nothing was built.
ghost use Rattle.std.specs.Prelude.{◌≡◌};
ghost use Rattle.pj_build.specs.declared.fault.BuildFault.TheVariants as faults;
ghost use Rattle.pj_build.specs.Faults.{fault_of};

use pj_port::KeepFault;
use pj_value::NoMemory;
use std::alloc::AllocFailed;
use thiserror::Error;

/// Why nothing was built. What was kept until then stays with the port, and no draft names it.
#[derive(Clone, Copy, Debug, PartialEq, Eq, Error)]
pub enum BuildFault {
    /// The port couldn't keep a column. Its count of faults says so too.
    #[error("could not keep a column")]
    StoreFault,
    /// The call was out of memory.
    #[error("out of memory")]
    NoMemory,
}

impl From<NoMemory> for BuildFault {
    ghost from_gives = { λ _ e. e ≡ faults.NoMemory };

    fn from(_e: NoMemory) -> BuildFault {
        BuildFault::NoMemory
    }
}

impl<T: Drop> From<AllocFailed<T>> for BuildFault {
    ghost from_gives = { λ _ e. e ≡ faults.NoMemory };

    fn from(_e: AllocFailed<T>) -> BuildFault {
        BuildFault::NoMemory
    }
}

impl From<KeepFault> for BuildFault {
    ghost from_gives = { λ fault e. e ≡ fault_of fault };

    fn from(fault: KeepFault) -> BuildFault {
        match fault {
            KeepFault::Failed => BuildFault::StoreFault,
            KeepFault::NoMemory => BuildFault::NoMemory,
        }
    }
}
