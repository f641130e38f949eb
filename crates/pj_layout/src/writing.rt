//! The bytes of a granule, which are written behind others.
ghost use Rattle.std.specs.Prelude.{◌≡◌, ◌<◌, ◌≤◌, ◌∷◌, ◌++◌, length, IfOk, OnOk};
ghost use Rattle.std.specs.Int.{bytes_low_first};
ghost use Rattle.pj_value.specs.Columns.{column_of_numbers, column_of_texts};
ghost use Rattle.pj_layout.specs.Granules.{tag_of, joined, text_ends, granule};

use crate::numbers::write_numbers;
use pj_value::{Kind, NoMemory, Text};
use std::alloc::Global;

/// How many bytes stand in front of the values: the tag, and four for the number of values.
pub(crate) const HEAD: usize = 5;

/// Writes the granule of these numbers behind other bytes.
pub(crate) fn write_number_granule(out: &mut Vec<u8>, numbers: &[u64]) -> Result<(), NoMemory>
    requires { length numbers.now ≤ 65536 }
    ensures { OnOk result (out.new.items ≡ out.old.items ++ granule (column_of_numbers numbers.now)) }
{
    write_head(out, Kind::Num, numbers.len())?;
    write_numbers(out, numbers)
}

/// Writes the granule of these texts behind other bytes.
pub(crate) fn write_text_granule(out: &mut Vec<u8>, texts: &[Text]) -> Result<(), NoMemory>
    requires { length texts.now ≤ 65536 }
    ensures { OnOk result (out.new.items ≡ out.old.items ++ granule (column_of_texts texts.now)) }
{
    write_head(out, Kind::Text, texts.len())?;
    let ends = ends_of(*out.allocator(), texts)?;
    write_numbers(out, ends.as_slice())?;
    write_texts(out, texts)
}

/// Writes the tag of a kind and the number of values.
fn write_head(out: &mut Vec<u8>, kind: Kind, rows: usize) -> Result<(), NoMemory>
    requires { rows ≤ 65536 }
    ensures { OnOk result
        (out.new.items ≡ out.old.items ++ tag_of kind ∷ bytes_low_first 0 4 rows) }
{
    out.push(tag(kind))?;
    out.extend_from_slice(&(rows as u32).to_le_bytes())?;
    Ok(())
}

/// The first byte of the granules of a kind.
pub(crate) fn tag(kind: Kind) -> u8
    ensures { result ≡ tag_of kind }
{
    match kind {
        Kind::Num => b'N',
        Kind::Text => b'T',
    }
}

/// Where each of the texts ends, one behind the other.
fn ends_of(alloc: Global, texts: &[Text]) -> Result<Vec<u64>, NoMemory>
    ensures { IfOk result (λ ends. ends.items ≡ text_ends texts.now) }
{
    let mut ends = Vec::with_capacity(alloc, texts.len())?;
    let mut end: u64 = 0;
    'texts: for text in texts {
        // Texts of 2^64 bytes and more find no room behind the ends either.
        end = match end.checked_add(text.as_slice().len() as u64) {
            Some(end) => end,
            None => return Err(NoMemory),
        };
        ends.push(end)?;
    }
    Ok(ends)
}

/// Writes texts behind other bytes.
fn write_texts(out: &mut Vec<u8>, texts: &[Text]) -> Result<(), NoMemory>
    ensures { OnOk result (out.new.items ≡ out.old.items ++ joined texts.now) }
{
    'texts: for text in texts {
        out.extend_from_slice(text.as_slice())?;
    }
    Ok(())
}
