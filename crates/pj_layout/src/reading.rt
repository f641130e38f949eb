//! A granule is read from its bytes, or the offset is told at which they are damaged.
ghost use Rattle.std.specs.Prelude.{◌≡◌, ℕ, ◌≤◌, Some, true, false, length, IfOk, IsErrOf};
ghost use Rattle.pj_value.specs.declared.value.Kind.TheVariants as kinds;
ghost use Rattle.pj_layout.specs.declared.reading.GranuleFault.TheVariants as faults;
ghost use Rattle.pj_layout.specs.Granules.{IsGranuleOf};
ghost use Rattle.pj_layout.specs.Damage.{has_tag, has_rows, are_ends, are_values, damage};
ghost use Rattle.pj_layout.specs.Reading.{texts_in, values_in};

use crate::numbers::read_numbers;
use crate::writing::{HEAD, tag};
use byteorder::{ByteOrder, LittleEndian};
use pj_value::{Column, Kind, NoMemory, Text};
use std::alloc::Global;
use thiserror::Error;

/// The most values that a granule has.
const MOST_ROWS: u32 = 65_536;

/// Why bytes were not read as a granule.
#[derive(Clone, Copy, Debug, PartialEq, Eq, Error)]
pub enum GranuleFault {
    /// They are no granule of so many values of the kind. The offset is counted from 0.
    #[error("damaged at byte {at}")]
    Damaged { at: u64 },
    /// Out of memory for the values. The bytes may be a granule or not.
    #[error("out of memory")]
    NoMemory,
}

impl From<NoMemory> for GranuleFault {
    ghost from_gives = { λ _ e. e ≡ faults.NoMemory };

    fn from(_e: NoMemory) -> GranuleFault {
        GranuleFault::NoMemory
    }
}

/// Reads a granule of so many values of a kind, as a mark tells them, in time linear in the bytes.
///
/// Damage is told at 0 where the first byte isn't the tag of the kind, else at 1 where the next four aren't the
/// number of rows, else at 5. Where `rows` is 0 or above 65,536 no bytes are a granule.
pub fn read_granule(
    alloc: Global,
    kind: Kind,
    rows: u32,
    bytes: &[u8],
) -> Result<Column, GranuleFault>
    ensures read { IfOk result (λ column. IsGranuleOf kind rows column bytes.now) }

    // No bytes both are a granule and are damaged (`damage_is_exact`).
    ensures damaged { (at : ℕ) → IsErrOf result (faults.Damaged at) → damage kind rows bytes.now ≡ Some at }
{
    if !starts_with_tag(kind, bytes) {
        return Err(GranuleFault::Damaged { at: 0 });
    }
    if !tells_rows(rows, bytes) {
        return Err(GranuleFault::Damaged { at: 1 });
    }
    if rows == 0 || rows > MOST_ROWS {
        return Err(GranuleFault::Damaged { at: 5 });
    }
    match kind {
        Kind::Num => number_column(alloc, rows as usize, &bytes[HEAD..]),
        Kind::Text => text_column(alloc, rows as usize, &bytes[HEAD..]),
    }
}

/// Whether the first byte is the tag of this kind.
fn starts_with_tag(kind: Kind, bytes: &[u8]) -> bool
    ensures { result ≡ has_tag kind bytes.now }
{
    match bytes.first() {
        Some(first) => *first == tag(kind),
        None => false,
    }
}

/// Whether the four bytes behind the first are this number of rows.
fn tells_rows(rows: u32, bytes: &[u8]) -> bool
    ensures { result ≡ has_rows rows bytes.now }
{
    bytes.len() >= HEAD && LittleEndian::read_u32(&bytes[1..]) == rows
}

/// The numbers whose bytes these are.
fn number_column(alloc: Global, rows: usize, bytes: &[u8]) -> Result<Column, GranuleFault>
    requires { rows ≤ 65536 }
    ensures read { IfOk result (λ column. (are_values kinds.Num rows bytes.now ≡ true)
        × (column ≡ values_in kinds.Num rows bytes.now)) }
    ensures damaged { (at : ℕ) → IsErrOf result (faults.Damaged at)
        → (at ≡ 5) × (are_values kinds.Num rows bytes.now ≡ false) }
{
    if bytes.len() != 8 * rows {
        return Err(GranuleFault::Damaged { at: 5 });
    }
    let numbers = read_numbers(alloc, rows, bytes)?;
    Ok(Column::from_numbers(numbers))
}

/// The texts whose bytes these are.
fn text_column(alloc: Global, rows: usize, bytes: &[u8]) -> Result<Column, GranuleFault>
    requires { rows ≤ 65536 }
    ensures read { IfOk result (λ column. (are_values kinds.Text rows bytes.now ≡ true)
        × (column ≡ values_in kinds.Text rows bytes.now)) }
    ensures damaged { (at : ℕ) → IsErrOf result (faults.Damaged at)
        → (at ≡ 5) × (are_values kinds.Text rows bytes.now ≡ false) }
{
    if bytes.len() < 8 * rows {
        return Err(GranuleFault::Damaged { at: 5 });
    }
    let ends = read_numbers(alloc, rows, bytes)?;
    let texts = &bytes[8 * rows..];
    if !may_end(ends.as_slice(), texts.len()) {
        return Err(GranuleFault::Damaged { at: 5 });
    }
    let texts = cut_texts(alloc, ends.as_slice(), texts)?;
    Ok(Column::from_texts(texts))
}

/// Whether texts of so many bytes may have these ends.
fn may_end(ends: &[u64], len: usize) -> bool
    ensures { result ≡ are_ends ends.now len }
{
    match ends.last() {
        Some(last) => *last == len as u64 && ends.is_sorted(),
        None => len == 0,
    }
}

/// The texts that have these ends, one behind the other.
fn cut_texts(alloc: Global, ends: &[u64], bytes: &[u8]) -> Result<Vec<Text>, NoMemory>
    requires { are_ends ends.now (length bytes.now) ≡ true }
    ensures { IfOk result (λ texts. texts.items ≡ texts_in 0 ends.now bytes.now) }
{
    let mut texts = Vec::with_capacity(alloc, ends.len())?;
    let mut from = 0;
    'ends: for end in ends {
        let to = *end as usize;
        texts.push(Text::new(alloc, &bytes[from..to])?)?;
        from = to;
    }
    Ok(texts)
}
