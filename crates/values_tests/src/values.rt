//! What no clause says: that calls succeed where memory is ample, and worked examples.
ghost use Rattle.std.specs.Prelude.{◌≡◌, ◌<◌, IsTrue, length};
ghost use Rattle.std.specs.List.{All};
ghost use Rattle.pj_value.specs.Rows.{rows_in};

use crate::given::push_row;
use pj_value::*;
use std::alloc::Global;
use std::cmp::Ordering;
use std::test::Fail;

fn text(alloc: Global, bytes: &[u8]) -> Result<Value, NoMemory> {
    Ok(Value::Text(Text::new(alloc, bytes)?))
}

/// Whether a cell lends this number, or a text of these bytes.
fn lends(cell: Cell<'_>, number: u64, bytes: &[u8]) -> bool {
    match cell {
        Cell::Num(n) => n == number,
        Cell::Text(t) => t.as_slice() == bytes,
    }
}

fn is_shared<T: Send + Sync>(_value: &T) -> bool {
    true
}

/// Whether there are three rows, the last two (2^64 - 1, '') and (7, 'a').
fn end_as_added(rows: &Rows) -> bool {
    if rows.len() != 3 || rows.kinds().len() != 2 {
        return false;
    }
    let second = lends(rows.cell(1, 0), u64::MAX, b"") && lends(rows.cell(1, 1), 0, b"");
    let third = lends(rows.cell(2, 0), 7, b"") && lends(rows.cell(2, 1), 0, b"a");
    second && third
}

/// One row, (7, 'a').
fn one_row(alloc: Global) -> Result<Rows, Fail> {
    let mut rows = Rows::new(alloc, &[Kind::Num, Kind::Text])?;
    push_row(alloc, &mut rows, 7, b"a")?;
    Ok(rows)
}

/// Puts a row behind others, and then copies of the others.
fn repeat(alloc: Global, rows: &mut Rows) -> Result<(), Fail> {
    let copy = rows.duplicate()?;
    push_row(alloc, rows, u64::MAX, b"")?;
    rows.append(&copy)?;
    Ok(())
}

/// Whether new rows are none.
fn are_empty_at_first(alloc: Global) -> Result<bool, NoMemory> {
    let rows = Rows::new(alloc, &[Kind::Num])?;
    Ok(rows.is_empty())
}

#[test]
fn new_rows_are_empty(rt: HostRuntime) -> Result<(), Fail> {
    assert!(rt; are_empty_at_first(rt.alloc())?);
    Ok(())
}

#[test]
fn rows_give_back_what_was_added(rt: HostRuntime) -> Result<(), Fail> {
    let mut rows = one_row(rt.alloc())?;
    repeat(rt.alloc(), &mut rows)?;
    assert!(rt; end_as_added(&rows) && is_shared(&rows));
    Ok(())
}

/// Whether a row is taken among rows of two numbers. If not, it is refused for its shape.
fn is_taken(alloc: Global, row: &[Value]) -> Result<bool, NoMemory> {
    let mut rows = Rows::new(alloc, &[Kind::Num, Kind::Num])?;
    match rows.push(row) {
        Ok(()) => Ok(rows.len() == 1),
        Err(PushFault::WrongShape) => Ok(false),
        Err(PushFault::NoMemory) => Err(NoMemory),
    }
}

/// Whether a row of so many numbers is.
fn numbers_are_taken(alloc: Global, count: u64) -> Result<bool, NoMemory> {
    let mut row = Vec::new(alloc);
    for number in 0..count {
        row.push(Value::Num(number))?;
    }
    is_taken(alloc, row.as_slice())
}

/// Whether a row of a number and a text is.
fn text_is_taken(alloc: Global, bytes: &[u8]) -> Result<bool, NoMemory> {
    let text = text(alloc, bytes)?;
    is_taken(alloc, &[Value::Num(1), text])
}

#[test]
fn a_row_of_another_shape_is_refused(rt: HostRuntime) -> Result<(), Fail> {
    for (count, taken) in [(0u64, false), (1, false), (2, true), (3, false)] {
        assert!(rt; numbers_are_taken(rt.alloc(), count)? == taken, "{count}");
    }
    assert!(rt; !text_is_taken(rt.alloc(), b"2")?);
    Ok(())
}

/// Whether a column of texts refuses a number, and then takes this value, a text of these bytes.
fn column_takes(alloc: Global, value: Value, bytes: &[u8]) -> bool {
    let mut column = Column::new(alloc, Kind::Text);
    let refused = column.push(Value::Num(1)) == Err(PushFault::WrongShape);
    let taken = column.push(value) == Ok(());
    let one = column.len() == 1 && lends(column.cell(0), 0, bytes);
    refused && taken && one && column.kind() == Kind::Text
}

#[test]
fn a_column_takes_values_of_its_kind(rt: HostRuntime) -> Result<(), Fail> {
    let value = text(rt.alloc(), b"x")?;
    assert!(rt; column_takes(rt.alloc(), value, b"x"));
    Ok(())
}

/// Whether a value is of this kind, and 3 or the text 'abc'.
fn is_as_given(value: &Value, kind: Kind) -> bool {
    value.kind() == kind && lends(value.as_cell(), 3, b"abc")
}

/// Whether the copy of a value is, and that of what it lends.
fn copies_are_as_given(alloc: Global, value: &Value, kind: Kind) -> Result<bool, NoMemory> {
    let copy = value.duplicate(alloc)?;
    let again = copy.as_cell().to_value(alloc)?;
    Ok(is_as_given(&copy, kind) && is_as_given(&again, kind))
}

/// Whether this value is, and its copies.
fn is_copied_whole(alloc: Global, value: Value, kind: Kind) -> Result<bool, NoMemory> {
    Ok(is_as_given(&value, kind) && copies_are_as_given(alloc, &value, kind)?)
}

#[test]
fn values_are_copied_whole(rt: HostRuntime) -> Result<(), Fail> {
    let text = text(rt.alloc(), b"abc")?;
    assert!(rt; is_copied_whole(rt.alloc(), Value::Num(3), Kind::Num)?);
    assert!(rt; is_copied_whole(rt.alloc(), text, Kind::Text)?);
    Ok(())
}

/// The bytes from 0 on, so many of them.
fn bytes_of(alloc: Global, len: u8) -> Result<Vec<u8>, NoMemory> {
    let mut bytes = Vec::new(alloc);
    for byte in 0..len {
        bytes.push(byte)?;
    }
    Ok(bytes)
}

/// Whether a text of these bytes has them, and its copy.
fn are_kept(alloc: Global, bytes: &[u8]) -> Result<bool, NoMemory> {
    let text = Text::new(alloc, bytes)?;
    let copy = text.duplicate(alloc)?;
    Ok(text.as_slice() == bytes && copy.as_slice() == bytes)
}

/// Whether a text of so many bytes has them, copied and moved.
fn so_many_are_kept(alloc: Global, len: u8) -> Result<bool, NoMemory> {
    let bytes = bytes_of(alloc, len)?;
    let moved = Text::from_vec(bytes_of(alloc, len)?);
    Ok(are_kept(alloc, bytes.as_slice())? && moved.as_slice() == bytes.as_slice())
}

#[test]
fn a_text_keeps_its_bytes_whatever_its_length(rt: HostRuntime) -> Result<(), Fail> {
    for len in [0u8, 1, 15, 16, 17, 31, 32, 33, 200] {
        assert!(rt; so_many_are_kept(rt.alloc(), len)?, "{len}");
    }
    Ok(())
}

/// The texts and what they are written as.
static BOTH_WAYS: [(&[u8], &[u8]); 26] = [
    (b"", b""),
    (b"a", b"a"),
    (b"plain 'text'", b"plain 'text'"),
    (b"\"quoted\"", b"\"quoted\""),
    (b"\\", b"\\\\"),
    (b"\t", b"\\t"),
    (b"\n", b"\\n"),
    (b"\r", b"\\r"),
    (b"\0", b"\\0"),
    (b"'", b"'"),
    (b"\x01", b"\x01"),
    (b"\x7f", b"\x7f"),
    (b"\x80", b"\x80"),
    (b"\xff\xfe", b"\xff\xfe"),
    (b"t", b"t"),
    (b"n0r", b"n0r"),
    (b"\\t", b"\\\\t"),
    (b"\\\\", b"\\\\\\\\"),
    (b"\\\n", b"\\\\\\n"),
    (b"\t\t", b"\\t\\t"),
    (b"a\tb\nc\rd", b"a\\tb\\nc\\rd"),
    (b"\0\x01\xff", b"\\0\x01\xff"),
    (b"\\\t\n\r\0'", b"\\\\\\t\\n\\r\\0'"),
    (b"end\\", b"end\\\\"),
    (
        b"more than sixteen plain bytes",
        b"more than sixteen plain bytes",
    ),
    (b"sixteen\tand many\tmore", b"sixteen\\tand many\\tmore"),
];

/// What is read but never written so, and the texts.
static READ_ALONE: [(&[u8], &[u8]); 4] = [
    (b"\\'", b"'"),
    (b"it\\'s", b"it's"),
    (b"a\tb\nc", b"a\tb\nc"),
    (b"\r\0", b"\r\0"),
];

/// What is not read, and the offsets of the first bad escapes.
static REFUSED: [(&[u8], usize); 12] = [
    (b"\\", 0),
    (b"\\q", 0),
    (b"abc\\", 3),
    (b"\\\\\\", 2),
    (b"\\t\\", 2),
    (b"a\\T", 1),
    (b"a\\\"", 1),
    (b"\\t\\x41", 2),
    (b"\\q\\w", 0),
    (b"\\0\\1", 2),
    (b"\\\n", 0),
    (b"\xff\\\xff", 1),
];

/// Whether a text is written as these bytes, behind others.
fn is_written_as(alloc: Global, text: &[u8], written: &[u8]) -> Result<bool, NoMemory> {
    let mut out = Vec::new(alloc);
    out.push(b'>')?;
    escape(text, &mut out)?;
    Ok(out[0] == b'>' && &out[1..] == written)
}

/// Whether bytes are read as a text.
fn is_read_as(alloc: Global, written: &[u8], text: &[u8]) -> bool {
    match unescape(alloc, written) {
        Ok(found) => found.as_slice() == text,
        Err(_) => false,
    }
}

/// Whether bytes have their first bad escape at this offset.
fn breaks_at(alloc: Global, written: &[u8], offset: usize) -> bool {
    match unescape(alloc, written) {
        Ok(_) => false,
        Err(fault) => fault == UnescapeFault::BadEscape { at: offset },
    }
}

#[test]
fn texts_are_written_and_read_back(rt: HostRuntime) -> Result<(), Fail> {
    for (text, written) in &BOTH_WAYS {
        assert!(rt; is_written_as(rt.alloc(), text, written)?, "{text:?}");
        assert!(rt; is_read_as(rt.alloc(), written, text), "{written:?}");
    }
    for (written, text) in &READ_ALONE {
        assert!(rt; is_read_as(rt.alloc(), written, text), "{written:?}");
    }
    Ok(())
}

#[test]
fn a_bad_escape_is_told_by_its_offset(rt: HostRuntime) -> Result<(), Fail> {
    for (written, offset) in &REFUSED {
        assert!(rt; breaks_at(rt.alloc(), written, *offset), "{written:?}");
    }
    Ok(())
}

/// Whether rows of no columns are counted where one is added, one of another shape is refused, and all but two
/// are dropped.
fn no_columns_are_counted(alloc: Global) -> Result<bool, NoMemory> {
    let mut rows = Rows::of_no_columns(alloc, 3);
    let three = rows.len() == 3 && rows.kinds().is_empty();
    let added = rows.push(&[]) == Ok(());
    let refused = rows.push(&[Value::Num(1)]) == Err(PushFault::WrongShape);
    let four = rows.len() == 4;
    rows.truncate(2);
    let copy = rows.duplicate()?;
    Ok(three && added && refused && four && copy.len() == 2)
}

#[test]
fn rows_of_no_columns_are_counted(rt: HostRuntime) -> Result<(), Fail> {
    assert!(rt; no_columns_are_counted(rt.alloc())?);
    Ok(())
}

/// Seven rows of a number, a text, and the index.
fn seven(alloc: Global) -> Result<Rows, PushFault> {
    let mut rows = Rows::new(alloc, &[Kind::Num, Kind::Text, Kind::Num])?;
    let given: [(u64, &[u8], u64); 7] = [
        (3, b"b", 0),
        (1, b"ab", 1),
        (3, b"a", 2),
        (1, b"", 3),
        (2, b"\xff", 4),
        (10, b"a", 5),
        (1, b"ab", 6),
    ];
    for (number, bytes, index) in given {
        let text = text(alloc, bytes)?;
        rows.push(&[Value::Num(number), text, Value::Num(index)])?;
    }
    Ok(rows)
}

/// Whether the third column has these numbers.
fn indexes_are(rows: &Rows, wanted: &[u64]) -> bool {
    if rows.len() != wanted.len() || rows.kinds().len() != 3 {
        return false;
    }
    for (at, index) in wanted.iter().enumerate() {
        if !lends(rows.cell(at, 2), *index, b"") {
            return false;
        }
    }
    true
}

/// Whether the seven rows come in this order where they are sorted by these columns.
fn come_in_order(alloc: Global, keys: &[usize], wanted: &[u64]) -> Result<bool, PushFault> {
    let mut rows = seven(alloc)?;
    rows.sort_by(keys)?;
    Ok(indexes_are(&rows, wanted))
}

/// Columns, and the order of the seven rows by them.
static SORTED: [(&[usize], &[u64]); 5] = [
    (&[], &[0, 1, 2, 3, 4, 5, 6]),
    (&[0], &[1, 3, 6, 4, 0, 2, 5]),
    (&[1], &[3, 2, 5, 1, 6, 0, 4]),
    (&[0, 1], &[3, 1, 6, 4, 2, 0, 5]),
    (&[1, 0, 2], &[3, 2, 5, 1, 6, 0, 4]),
];

#[test]
fn rows_are_sorted_by_their_keys_and_keep_their_order(rt: HostRuntime) -> Result<(), Fail> {
    for (keys, wanted) in &SORTED {
        assert!(rt; come_in_order(rt.alloc(), keys, wanted)?, "{keys:?}");
    }
    Ok(())
}

/// Two hundred rows of a number below 4, and the index.
fn equal_rows(alloc: Global) -> Result<Rows, PushFault> {
    let mut rows = Rows::new(alloc, &[Kind::Num, Kind::Num])?;
    for index in 0u64..200 {
        rows.push(&[Value::Num(index * 37 % 4), Value::Num(index)])?;
    }
    Ok(rows)
}

/// Whether the numbers rise, and the indexes within those that are the same.
fn rise(numbers: &Column, indexes: &Column) -> bool {
    for at in 1..numbers.len().min(indexes.len()) {
        let stands = match cell_cmp(numbers.cell(at - 1), numbers.cell(at)) {
            Ordering::Less => true,
            Ordering::Equal => cell_cmp(indexes.cell(at - 1), indexes.cell(at)) == Ordering::Less,
            Ordering::Greater => false,
        };
        if !stands {
            return false;
        }
    }
    true
}

/// Whether these are two hundred rows in the order of their numbers, and of their indexes.
fn are_sorted(rows: &Rows) -> bool {
    if rows.len() != 200 || rows.kinds().len() != 2 {
        return false;
    }
    rise(rows.column(0), rows.column(1))
}

#[test]
fn many_equal_rows_keep_their_order(rt: HostRuntime) -> Result<(), Fail> {
    let mut rows = equal_rows(rt.alloc())?;
    rows.sort_by(&[0])?;
    assert!(rt; are_sorted(&rows));
    Ok(())
}

/// Whether there is a row at each of these indexes, of which there are so many.
fn are_below(indexes: &[usize], len: usize) -> bool
    ensures { IsTrue result → All (λ at. at < len) indexes.now }
{
    indexes.iter().all(|at| *at < len)
}

/// Whether the rows at these indexes are gathered in this order.
fn are_gathered(rows: &Rows, order: &[usize], wanted: &[u64]) -> Result<bool, NoMemory> {
    if !are_below(order, rows.len()) {
        return Ok(false);
    }
    let found = rows.gather(order)?;
    Ok(indexes_are(&found, wanted))
}

/// Whether seven rows are cut to three, and not to more than there are.
fn are_cut(rows: &mut Rows) -> bool {
    rows.truncate(9);
    let whole = rows.len() == 7;
    rows.truncate(3);
    whole && indexes_are(rows, &[0, 1, 2])
}

#[test]
fn rows_are_gathered_and_cut(rt: HostRuntime) -> Result<(), Fail> {
    let mut rows = seven(rt.alloc())?;
    assert!(rt; are_gathered(&rows, &[5, 0, 5, 2], &[5, 0, 5, 2])?);
    assert!(rt; are_cut(&mut rows));
    Ok(())
}

/// Whether each of the columns has as many values as the first of them.
fn are_level(columns: &[Column]) -> bool
    requires { 0 < length columns.now }
    ensures { IsTrue result → All (λ c. length c.values ≡ rows_in columns.now) columns.now }
{
    let len = columns[0].len();
    columns.iter().all(|column| column.len() == len)
}

/// The texts at these indexes of the seven rows.
fn texts_at(alloc: Global, order: &[usize]) -> Result<Column, PushFault> {
    let rows = seven(alloc)?;
    if rows.kinds().len() != 3 || !are_below(order, rows.column(1).len()) {
        return Err(PushFault::WrongShape);
    }
    Ok(rows.column(1).gather(alloc, order)?)
}

/// The copy of a column, and the column.
fn twice(alloc: Global, column: Column) -> Result<Vec<Column>, NoMemory> {
    let copy = column.duplicate(alloc)?;
    let mut columns = Vec::new(alloc);
    columns.push(copy)?;
    columns.push(column)?;
    Ok(columns)
}

/// The rows of columns of one length.
fn rows_in_columns(alloc: Global, columns: Vec<Column>) -> Result<Rows, NoMemory> {
    if columns.is_empty() || !are_level(columns.as_slice()) {
        return Err(NoMemory);
    }
    Rows::from_columns(alloc, columns)
}

/// Whether these are three rows of two texts, from ('ab', 'ab') to (.., '\xff').
fn are_joined(rows: &Rows) -> bool {
    if rows.len() != 3 || rows.kinds().len() != 2 {
        return false;
    }
    let texts = rows.kinds() == [Kind::Text, Kind::Text].as_slice();
    texts && lends(rows.cell(0, 0), 0, b"ab") && lends(rows.cell(2, 1), 0, b"\xff")
}

#[test]
fn columns_are_lent_gathered_and_made_rows(rt: HostRuntime) -> Result<(), Fail> {
    let texts = texts_at(rt.alloc(), &[6, 5, 4])?;
    assert!(rt; texts.len() == 3 && texts.kind() == Kind::Text);
    let columns = twice(rt.alloc(), texts)?;
    let joined = rows_in_columns(rt.alloc(), columns)?;
    assert!(rt; are_joined(&joined));
    Ok(())
}
