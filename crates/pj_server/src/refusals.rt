//! How a SELECT is refused whose parts could not be read.
ghost use Rattle.std.specs.Prelude.{◌≡◌, ◌<◌, ℕ, length};
ghost use Rattle.pj_exec.specs.declared.fault.SelectFault.TheVariants as faults;
ghost use Rattle.pj_server.specs.Refusals.{name_of, IsRefusalFor};

use pj_bind::types::{PartName, Refusal, SourceName};
use pj_exec::SelectFault;
use pj_part::Part;

/// The refusal of a SELECT over these parts.
pub(crate) fn refusal_for<B>(parts: &[Part<B>], fault: SelectFault) -> Refusal
    requires { (part column granule at : ℕ) → fault ≡ faults.Damaged part column granule at
        → part < length parts.now }
    ensures { IsRefusalFor parts.now fault result }
{
    match fault {
        SelectFault::StoreFault => Refusal::StoreFault,
        SelectFault::Damaged {
            part,
            column,
            granule,
            at,
        } => Refusal::Damaged {
            part: name_of_part(&parts[part]),
            source: SourceName::Base,
            column,
            granule,
            at,
        },
        SelectFault::NoMemory => Refusal::NoMemory,
    }
}

/// The name of a part.
fn name_of_part<B>(part: &Part<B>) -> PartName
    ensures { result ≡ name_of part.now }
{
    PartName {
        min: part.min,
        max: part.max,
        level: part.level,
        field: part.field,
    }
}
