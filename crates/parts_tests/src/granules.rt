//! Granules: bytes that were worked out by hand, both ways, and what bytes near them are read as.
ghost use Rattle.std.specs.Prelude.{◌≤◌};

use pj_layout::{GranuleFault, Mark, read_granule, write_column};
use pj_value::{Column, Kind, NoMemory, Text, cell_cmp};
use std::alloc::Global;
use std::test::Fail;

/// A column of these numbers.
fn number_column(alloc: Global, numbers: &[u64]) -> Result<Column, NoMemory> {
    let numbers = Vec::from_slice(alloc, numbers)?;
    Ok(Column::from_numbers(numbers))
}

/// A column of these texts.
fn text_column(alloc: Global, texts: &[&[u8]]) -> Result<Column, NoMemory> {
    let mut column = Vec::new(alloc);
    'texts: for bytes in texts {
        column.push(Text::new(alloc, bytes)?)?;
    }
    Ok(Column::from_texts(column))
}

/// Whether a column has the values of another from an index on.
fn has_values_from(read: &Column, column: &Column, from: usize) -> bool {
    'values: for at in 0..read.len() {
        let there = from.saturating_add(at);
        if !cell_cmp(read.cell_or_zero(at), column.cell_or_zero(there)).is_eq() {
            return false;
        }
    }
    read.kind() == column.kind()
}

/// Whether two columns have the same values.
fn is_same(one: &Column, other: &Column) -> bool {
    one.len() == other.len() && has_values_from(one, other, 0)
}

/// Whether a column has these bytes, in granules of so many values.
fn is_written_as(
    alloc: Global,
    column: &Column,
    granularity: u32,
    wanted: &[u8],
) -> Result<bool, NoMemory>
    requires some { 1 ≤ granularity }
    requires few { granularity ≤ 65536 }
{
    let written = write_column(alloc, column, granularity)?;
    Ok(written.bytes.as_slice() == wanted)
}

/// Whether bytes are read as this column.
fn is_read_as(alloc: Global, bytes: &[u8], column: &Column) -> Result<bool, GranuleFault> {
    let rows = u32::try_from(column.len()).unwrap_or(0);
    let read = read_granule(alloc, column.kind(), rows, bytes)?;
    Ok(is_same(&read, column))
}

/// Numbers, and their granule.
static OF_NUMBERS: [(&[u64], &[u8]); 3] = [
    (
        &[1, 258],
        b"N\x02\0\0\0\x01\0\0\0\0\0\0\0\x02\x01\0\0\0\0\0\0",
    ),
    (&[0], b"N\x01\0\0\0\0\0\0\0\0\0\0\0"),
    (
        &[18446744073709551615],
        b"N\x01\0\0\0\xff\xff\xff\xff\xff\xff\xff\xff",
    ),
];

/// Texts, and their granule.
static OF_TEXTS: [(&[&[u8]], &[u8]); 3] = [
    (
        &[b"a", b"bc"],
        b"T\x02\0\0\0\x01\0\0\0\0\0\0\0\x03\0\0\0\0\0\0\0abc",
    ),
    (&[b""], b"T\x01\0\0\0\0\0\0\0\0\0\0\0"),
    (
        &[b"", b"twenty-four bytes or so.", b""],
        b"T\x03\0\0\0\0\0\0\0\0\0\0\0\x18\0\0\0\0\0\0\0\x18\0\0\0\0\0\0\0twenty-four bytes or so.",
    ),
];

#[test]
fn granules_have_the_bytes_that_were_worked_out_by_hand(rt: HostRuntime) -> Result<(), Fail> {
    let alloc = rt.alloc();
    for (numbers, bytes) in &OF_NUMBERS {
        let column = number_column(alloc, numbers)?;
        assert!(rt; is_written_as(alloc, &column, 65_536, bytes)?, "{bytes:?}");
        assert!(rt; is_read_as(alloc, bytes, &column)?, "{bytes:?}");
    }
    for (texts, bytes) in &OF_TEXTS {
        let column = text_column(alloc, texts)?;
        assert!(rt; is_written_as(alloc, &column, 65_536, bytes)?, "{bytes:?}");
        assert!(rt; is_read_as(alloc, bytes, &column)?, "{bytes:?}");
    }
    Ok(())
}

/// Whether bytes are damaged at this offset.
fn is_damaged(alloc: Global, kind: Kind, rows: u32, bytes: &[u8], at: u64) -> bool {
    match read_granule(alloc, kind, rows, bytes) {
        Ok(_) => false,
        Err(fault) => fault == GranuleFault::Damaged { at },
    }
}

/// Bytes that are no granule of so many values of a kind, and the offset of the damage.
static DAMAGED: [(Kind, u32, &[u8], u64); 15] = [
    // Ends that fall, though the last is where the bytes end.
    (
        Kind::Text,
        2,
        b"T\x02\0\0\0\x03\0\0\0\0\0\0\0\x01\0\0\0\0\0\0\0a",
        5,
    ),
    // Another first byte, and the tag of the other kind.
    (
        Kind::Num,
        2,
        b"O\x02\0\0\0\x01\0\0\0\0\0\0\0\x02\x01\0\0\0\0\0\0",
        0,
    ),
    (Kind::Num, 1, b"T\x01\0\0\0\0\0\0\0\0\0\0\0", 0),
    // One value where two are told, read for two rows and for one.
    (Kind::Num, 2, b"N\x02\0\0\0\x01\0\0\0\0\0\0\0", 5),
    (Kind::Num, 1, b"N\x02\0\0\0\x01\0\0\0\0\0\0\0", 1),
    // The tag comes before the number of rows.
    (Kind::Text, 9, b"N", 0),
    (Kind::Num, 9, b"N", 1),
    // A byte behind the last value.
    (Kind::Num, 1, b"N\x01\0\0\0\x01\0\0\0\0\0\0\0\0", 5),
    (Kind::Text, 1, b"T\x01\0\0\0\x01\0\0\0\0\0\0\0ab", 5),
    // A text that ends behind the bytes, one that ends far behind them, and ends without texts.
    (Kind::Text, 1, b"T\x01\0\0\0\x02\0\0\0\0\0\0\0a", 5),
    (
        Kind::Text,
        1,
        b"T\x01\0\0\0\xff\xff\xff\xff\xff\xff\xff\xffa",
        5,
    ),
    (Kind::Text, 2, b"T\x02\0\0\0\0\0\0\0\0\0\0\0", 5),
    // No granule has no values, nor more than 65,536.
    (Kind::Num, 0, b"N\0\0\0\0", 5),
    (Kind::Text, 0, b"T\0\0\0\0", 5),
    (Kind::Num, 65_537, b"N\x01\0\x01\0", 5),
];

#[test]
fn bytes_of_no_granule_are_damaged_at_their_offset(rt: HostRuntime) -> Result<(), Fail> {
    for (kind, rows, bytes, at) in &DAMAGED {
        assert!(rt;
            is_damaged(rt.alloc(), *kind, *rows, bytes, *at),
            "{bytes:?} for {rows}"
        );
    }
    Ok(())
}

/// The offset of the damage where the byte at this index is missing or another, if it is damaged by that.
fn offset_of(at: usize) -> u64 {
    match at {
        0 => 0,
        1..5 => 1,
        _ => 5,
    }
}

/// Whether bytes are damaged where the last of them are missing, however many, at the offset of the first of these.
fn are_fronts_damaged(alloc: Global, kind: Kind, rows: u32, bytes: &[u8]) -> bool {
    'fronts: for len in 0..bytes.len() {
        if !is_damaged(alloc, kind, rows, &bytes[..len], offset_of(len)) {
            return false;
        }
    }
    true
}

/// A copy of bytes, with another byte at an index.
fn changed(alloc: Global, bytes: &[u8], at: usize, flip: u8) -> Result<Vec<u8>, NoMemory> {
    let mut copy = Vec::from_slice(alloc, bytes)?;
    if let Some(byte) = copy.get_mut(at) {
        *byte ^= flip;
    }
    Ok(copy)
}

/// What bytes are read as.
#[derive(Clone, Copy, Debug)]
enum Outcome {
    Damaged(u64),
    /// Values whose granule these bytes are.
    Granule,
    /// Other values.
    Wrong,
}

fn read_back(alloc: Global, kind: Kind, rows: u32, bytes: &[u8]) -> Result<Outcome, NoMemory> {
    match read_granule(alloc, kind, rows, bytes) {
        Ok(column) if is_written_as(alloc, &column, 65_536, bytes)? => Ok(Outcome::Granule),
        Ok(_) => Ok(Outcome::Wrong),
        Err(GranuleFault::Damaged { at }) => Ok(Outcome::Damaged(at)),
        Err(GranuleFault::NoMemory) => Err(NoMemory),
    }
}

/// How many of the bytes that differ at one index are a granule, where the others are damaged at the offset of
/// this index.
fn granules_beside(
    alloc: Global,
    kind: Kind,
    rows: u32,
    bytes: &[u8],
) -> Result<Option<u32>, NoMemory> {
    let mut granules: u32 = 0;
    'offsets: for at in 0..bytes.len() {
        'flips: for flip in 1..=255u8 {
            let other = changed(alloc, bytes, at, flip)?;
            match read_back(alloc, kind, rows, other.as_slice())? {
                Outcome::Granule => granules = granules.wrapping_add(1),
                Outcome::Damaged(there) if there == offset_of(at) => {}
                _ => return Ok(None),
            }
        }
    }
    Ok(Some(granules))
}

/// Granules, and how many others there are that differ in one byte: each byte of a number or a text may be any
/// other, and the first text of `a` and `bc` may end at 0, 2 and 3.
static BESIDE: [(Kind, u32, &[u8], u32); 4] = [
    (
        Kind::Num,
        2,
        b"N\x02\0\0\0\x01\0\0\0\0\0\0\0\x02\x01\0\0\0\0\0\0",
        4080,
    ),
    (
        Kind::Text,
        2,
        b"T\x02\0\0\0\x01\0\0\0\0\0\0\0\x03\0\0\0\0\0\0\0abc",
        768,
    ),
    (Kind::Text, 1, b"T\x01\0\0\0\0\0\0\0\0\0\0\0", 0),
    (Kind::Text, 1, b"T\x01\0\0\0\x02\0\0\0\0\0\0\0ab", 510),
];

#[test]
fn a_granule_is_damaged_by_a_missing_byte_and_by_most_others(rt: HostRuntime) -> Result<(), Fail> {
    let alloc = rt.alloc();
    for (kind, rows, bytes, granules) in &BESIDE {
        let (kind, rows) = (*kind, *rows);
        assert!(rt; are_fronts_damaged(alloc, kind, rows, bytes), "{bytes:?}");
        assert_eq!(rt;
            granules_beside(alloc, kind, rows, bytes)?,
            Some(*granules),
            "{bytes:?}"
        );
    }
    Ok(())
}

/// The bytes of a mark.
fn bytes_at<'a>(bytes: &'a [u8], mark: &Mark) -> Option<&'a [u8]> {
    let from = mark.at as usize;
    bytes.get(from..from.saturating_add(mark.size as usize))
}

/// Whether a column is written as granules side by side, each of which is read as the next of its values.
fn comes_back(alloc: Global, column: &Column, granularity: u32) -> Result<bool, GranuleFault>
    requires some { 1 ≤ granularity }
    requires few { granularity ≤ 65536 }
{
    let written = write_column(alloc, column, granularity)?;
    let bytes = written.bytes.as_slice();
    let mut end: u64 = 0;
    let mut rows: usize = 0;
    'marks: for mark in written.marks.as_slice() {
        let Some(granule) = bytes_at(bytes, mark) else {
            return Ok(false);
        };
        let read = read_granule(alloc, column.kind(), mark.rows, granule)?;
        if mark.at != end || mark.rows > granularity || !has_values_from(&read, column, rows) {
            return Ok(false);
        }
        end = end.saturating_add(mark.size);
        rows = rows.saturating_add(read.len());
    }
    Ok(end == bytes.len() as u64 && rows == column.len())
}

/// How many granules of at most so many values these are.
fn granules_of(alloc: Global, column: &Column, granularity: u32) -> Result<usize, NoMemory>
    requires some { 1 ≤ granularity }
    requires few { granularity ≤ 65536 }
{
    let written = write_column(alloc, column, granularity)?;
    Ok(written.marks.as_slice().len())
}

/// How many values a granule may have, and how many granules seven values then make, and none.
static GRANULARITIES: [(u32, usize, usize); 5] = [
    (1, 7, 0),
    (2, 4, 0),
    (3, 3, 0),
    (7, 1, 0),
    (65_536, 1, 0),
];

#[test]
fn columns_come_back_by_their_marks(rt: HostRuntime) -> Result<(), Fail> {
    let alloc = rt.alloc();
    let numbers = number_column(alloc, &[7, 0, 18446744073709551615, 256, 7, 1, 65_536])?;
    let texts = text_column(
        alloc,
        &[
            b"",
            b"a",
            b"\0",
            b"a text of more than a few bytes",
            b"",
            b"\xff\n",
            b"z",
        ],
    )?;
    let none = Column::new(alloc, Kind::Text);
    for (granularity, some, nothing) in &GRANULARITIES {
        let granularity = *granularity;
        assert!(rt; granularity >= 1 && granularity <= 65_536);
        assert!(rt;
            comes_back(alloc, &numbers, granularity)?,
            "numbers by {granularity}"
        );
        assert!(rt;
            comes_back(alloc, &texts, granularity)?,
            "texts by {granularity}"
        );
        assert!(rt;
            comes_back(alloc, &none, granularity)?,
            "nothing by {granularity}"
        );
        assert_eq!(rt; granules_of(alloc, &numbers, granularity)?, *some);
        assert_eq!(rt; granules_of(alloc, &none, granularity)?, *nothing);
    }
    Ok(())
}
