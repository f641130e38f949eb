//! Numbers and values as bytes.
ghost use Rattle.std.specs.Prelude.{◌≡◌, ℕ, ◌<◌, ◌≤◌, ◌++◌, take, length, MatchOption, OnOk, OnErr};
ghost use Rattle.pj_value.specs.Values.{value_of, Fits};
ghost use Rattle.pj_value.specs.Summaries.{number_bytes, value_bytes};

use pj_value::{Cell, NoMemory};

/// The number whose bytes stand at the front, where there are enough.
pub(crate) fn number_at_front(bytes: &[u8]) -> Option<u64>
    ensures { MatchOption result (length bytes.now < 8) (λ n. (8 ≤ length bytes.now)
        × (n < 18446744073709551616) × (number_bytes n ≡ take 8 bytes.now)) }
{
    match bytes.first_chunk::<8>() {
        Some(front) => Some(u64::from_le_bytes(*front)),
        None => None,
    }
}

/// Writes the bytes of a number behind others.
pub(crate) fn write_number(out: &mut Vec<u8>, number: u64) -> Result<(), NoMemory>
    ensures bytes { OnOk result (out.new.items ≡ out.old.items ++ number_bytes number) }
    ensures same { OnErr result (out.new.items ≡ out.old.items) }
{
    out.extend_from_slice(&number.to_le_bytes())?;
    Ok(())
}

/// Writes the bytes of a value behind others. A call that fails may have written a part of them.
pub(crate) fn write_value(out: &mut Vec<u8>, cell: Cell<'_>) -> Result<(), NoMemory>
    ensures bytes { OnOk result (out.new.items ≡ out.old.items ++ value_bytes (value_of cell.entry)) }
    ensures fits { OnOk result (Fits (value_of cell.entry)) }
    ensures kept { take (length out.old.items) out.new.items ≡ out.old.items }
{
    match cell {
        Cell::Num(number) => write_number(out, number),
        Cell::Text(text) => {
            let bytes = text.as_slice();
            write_number(out, bytes.len() as u64)?;
            out.extend_from_slice(bytes)?;
            Ok(())
        }
    }
}

/// The number whose bytes these are.
pub(crate) fn number_alone(bytes: &[u8]) -> Option<u64>
    ensures { MatchOption result
        ((n : ℕ) → n < 18446744073709551616 → number_bytes n ≡ bytes.now → ⊥)
        (λ n. (n < 18446744073709551616) × (number_bytes n ≡ bytes.now)) }
{
    if bytes.len() == 8 {
        number_at_front(bytes)
    } else {
        None
    }
}
