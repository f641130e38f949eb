//! Numbers of eight bytes each, which are written and read many at once.
ghost use Rattle.std.specs.Prelude.{◌≡◌, ◌≤◌, ◌*◌, ◌++◌, flat_map, length, IfOk, OnOk};
ghost use Rattle.pj_value.specs.Summaries.{number_bytes};
ghost use Rattle.pj_layout.specs.Damage.{numbers_in};

use byteorder::{ByteOrder, LittleEndian};
use pj_value::NoMemory;
use std::alloc::Global;

/// Writes numbers behind other bytes.
pub(crate) fn write_numbers(out: &mut Vec<u8>, numbers: &[u64]) -> Result<(), NoMemory>
    requires { length numbers.now ≤ 65536 }
    ensures { OnOk result (out.new.items ≡ out.old.items ++ flat_map number_bytes numbers.now) }
{
    let len = out.len();
    out.resize(len + 8 * numbers.len(), 0)?;
    LittleEndian::write_u64_into(numbers, &mut out[len..]);
    Ok(())
}

/// The first numbers, so many, that stand in the bytes.
pub(crate) fn read_numbers(alloc: Global, count: usize, bytes: &[u8]) -> Result<Vec<u64>, NoMemory>
    requires { 8 * count ≤ length bytes.now }
    ensures { IfOk result (λ ns. ns.items ≡ numbers_in count bytes.now) }
{
    let mut numbers = Vec::new(alloc);
    numbers.resize(count, 0)?;
    LittleEndian::read_u64_into(&bytes[..8 * count], numbers.as_mut_slice());
    Ok(numbers)
}
