//! A column is written as one blob, its granules side by side.
ghost use Rattle.std.specs.Prelude.{◌≡◌, ◌<◌, ◌≤◌, ◌+◌, ◌++◌, length, IfOk, OnOk};
ghost use Rattle.std.specs.List.{AllByRecursion};
ghost use Rattle.pj_layout.specs.Granules.{granule, HasGranule};
ghost use Rattle.pj_layout.specs.Blobs.{column_range, chunks, blob, marks};

use crate::writing::{HEAD, write_number_granule, write_text_granule};
use pj_value::{Column, List, NoMemory};
use std::alloc::Global;

/// Where a granule stands in the blob of its column, and how many values it has.
#[derive(Clone, Copy, Debug, PartialEq, Eq)]
pub struct Mark {
    /// In bytes from the blob's start.
    pub at: u64,
    /// In bytes.
    pub size: u64,
    /// How many values.
    pub rows: u32,
}

/// The bytes of a column, and a mark for each granule, in order.
#[derive(Debug, Drop)]
pub struct Written {
    /// The granules, side by side.
    pub bytes: List<u8>,
    /// Where each granule stands among these, in their order.
    pub marks: List<Mark>,
}

/// Writes a column as granules of `granularity` values each, the last one of the rest. A column without values
/// has none.
///
/// It takes time linear in the bytes, and makes room for them once. While a granule of texts is written it takes
/// eight bytes for each of them besides.
pub fn write_column(alloc: Global, column: &Column, granularity: u32) -> Result<Written, NoMemory>
    requires some { 1 ≤ granularity }
    requires few { granularity ≤ 65536 }
    ensures bytes { IfOk result (λ written. written.bytes ≡ blob (chunks granularity column.now)) }
    ensures marks { IfOk result (λ written. written.marks ≡ marks (chunks granularity column.now)) }
    ensures whole { OnOk result (AllByRecursion HasGranule (chunks granularity column.now)) }
{
    let len = column.len();
    let most = granularity as usize;
    let count = len.div_ceil(most);
    let mut bytes = Vec::with_capacity(alloc, blob_size(column, count))?;
    let mut marks = Vec::with_capacity(alloc, count)?;
    'granules: for index in 0..count {
        let from = index * most;
        let to = from + most.min(len - from);
        let at = bytes.len();
        write_granule(&mut bytes, column, from, to)?;
        marks.push(Mark {
            at: at as u64,
            size: (bytes.len() - at) as u64,
            rows: (to - from) as u32,
        })?;
    }
    Ok(Written {
        bytes: List::from_vec(bytes),
        marks: List::from_vec(marks),
    })
}

/// How many bytes so many granules of a column have, so that room for them is made once. Where they are more
/// than can be counted it is the greatest number, for which there is no room.
fn blob_size(column: &Column, granules: usize) -> usize {
    let heads = granules.saturating_mul(HEAD);
    let values = column.len().saturating_mul(8);
    let mut size = heads.saturating_add(values);
    if let Some(texts) = column.texts() {
        'texts: for text in texts {
            size = size.saturating_add(text.as_slice().len());
        }
    }
    size
}

/// Writes the granule of the values from one index to before another, behind other bytes.
fn write_granule(out: &mut Vec<u8>, column: &Column, from: usize, to: usize) -> Result<(), NoMemory>
    requires some { from < to }
    requires within { to ≤ length column.now.values }
    requires few { to ≤ from + 65536 }
    ensures bytes { OnOk result (out.new.items ≡ out.old.items ++ granule (column_range column.now from to)) }
    ensures whole { OnOk result (HasGranule (column_range column.now from to)) }
{
    // A caller learns here that the values are of the kind, and fit.
    let _kind = column.kind();
    match column.numbers() {
        Some(numbers) => write_number_granule(out, &numbers[from..to]),
        None => match column.texts() {
            Some(texts) => write_text_granule(out, &texts[from..to]),
            None => unreachable!(),
        },
    }
}
