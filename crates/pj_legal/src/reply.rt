//! The reply of a statement, and its text.
ghost use Rattle.std.specs.Prelude.{◌≡◌, ◌<◌, ◌∷◌, ◌++◌, [], length, map, slice_index_or, IfOk, OnOk};
ghost use Rattle.std.specs.List.{flat_map, join_with_byte};
ghost use Rattle.std.specs.Fmt.{decimal};
ghost use Rattle.pj_value.specs.Values.{value_of};
ghost use Rattle.pj_bind.specs.declared.types.Refusal.TheVariants.{Damaged};
ghost use Rattle.pj_legal.specs.Texts.{value_text, row_text, refusal_text, announced, following};
ghost use Rattle.pj_legal.specs.Texts.{name_number, name_field, part_text, source_text};
ghost use Rattle.pj_legal.specs.Texts.{as_line, reply_text as text_of_reply};

use crate::bytes::{put, put_number};
use itoa::write_digits;
use pj_bind::types::{LimitName, PartName, Refusal, SourceName};
use pj_value::{Cell, NoMemory, Rows, Text, escape};
use std::alloc::Global;

/// What a statement is answered.
#[derive(Debug, Drop)]
pub enum Reply {
    /// It was done.
    Done,
    /// The rows that it asked for.
    Rows(Rows),
    /// It was refused.
    Refused(Refusal),
}

/// The text of a reply that this line shows to the session of this name: one text line, and then those
/// that it announces. Takes time and memory linear in the text.
#[tactic(auto, unfolding(crate::specs::Texts::reply_text))]
pub fn reply_text(alloc: Global, line: u32, name: &Text, reply: &Reply) -> Result<Text, NoMemory>
    ensures { IfOk result (λ text. text ≡ text_of_reply line name.now reply.now) }
{
    let mut out = Vec::new(alloc);
    put_number(&mut out, line as u64)?;
    out.push(b' ')?;
    put(&mut out, name.as_slice())?;
    out.push(b' ')?;
    put_announced(&mut out, reply)?;
    out.push(b'\n')?;
    put_following(&mut out, reply)?;
    Ok(Text::from_vec(out))
}

fn put_announced(out: &mut Vec<u8>, reply: &Reply) -> Result<(), NoMemory>
    ensures { OnOk result (out.new.items ≡ out.old.items ++ announced reply.now) }
{
    match reply {
        Reply::Done => put(out, b"ok"),
        Reply::Rows(rows) => put_counted(out, b"rows ", rows.len() as u64),
        Reply::Refused(refusal) => put_refusal(out, refusal),
    }
}

fn put_refusal(out: &mut Vec<u8>, refusal: &Refusal) -> Result<(), NoMemory>
    ensures { OnOk result (out.new.items ≡ out.old.items ++ refusal_text refusal.now) }
{
    match refusal {
        Refusal::Syntax(at) => put_counted(out, b"SYNTAX_ERROR ", *at as u64),
        Refusal::Limit(LimitName::Tokens) => put(out, b"LIMIT TOKENS"),
        Refusal::Limit(LimitName::Text) => put(out, b"LIMIT TEXT"),
        Refusal::Limit(LimitName::Tables) => put(out, b"LIMIT TABLES"),
        Refusal::Limit(LimitName::Columns) => put(out, b"LIMIT COLUMNS"),
        Refusal::Limit(LimitName::History) => put(out, b"LIMIT HISTORY"),
        Refusal::UnknownTable(name) => put_named(out, b"UNKNOWN_TABLE ", name),
        Refusal::TableExists(name) => put_named(out, b"TABLE_ALREADY_EXISTS ", name),
        Refusal::DuplicateColumn(name) => put_named(out, b"DUPLICATE_COLUMN ", name),
        Refusal::UnknownIdentifier(name) => put_named(out, b"UNKNOWN_IDENTIFIER ", name),
        Refusal::TypeMismatch => put(out, b"TYPE_MISMATCH"),
        Refusal::NotAnAggregate => put(out, b"NOT_AN_AGGREGATE"),
        Refusal::NotBuilt => put(out, b"NOT_BUILT"),
        Refusal::StoreFault => put(out, b"STORE_FAULT"),
        Refusal::Damaged {
            part,
            source,
            column,
            granule,
            at,
        } => { put_damaged(out, *part, *source, *column, *granule, *at) }
        Refusal::NoMemory => put(out, b"NO_MEMORY"),
    }
}

fn put_damaged(
    out: &mut Vec<u8>,
    part: PartName,
    source: SourceName,
    column: usize,
    granule: usize,
    at: u64,
) -> Result<(), NoMemory>
    ensures { OnOk result
        (out.new.items ≡ out.old.items ++ refusal_text (Damaged part source column granule at)) }
{
    put(out, b"DAMAGED_PART ")?;
    put_part(out, part)?;
    out.push(b' ')?;
    put_source(out, source)?;
    put_next(out, column as u64)?;
    put_next(out, granule as u64)?;
    put_next(out, at)?;
    Ok(())
}

fn put_part(out: &mut Vec<u8>, part: PartName) -> Result<(), NoMemory>
    ensures { OnOk result (out.new.items ≡ out.old.items ++ part_text part) }
{
    put(out, b"all")?;
    put_name_number(out, part.min)?;
    put_name_number(out, part.max)?;
    put_name_number(out, part.level)?;
    put_name_field(out, part.field)
}

fn put_name_number(out: &mut Vec<u8>, n: u64) -> Result<(), NoMemory>
    ensures { OnOk result (out.new.items ≡ out.old.items ++ name_number n) }
{
    out.push(b'_')?;
    put_number(out, n)
}

fn put_name_field(out: &mut Vec<u8>, field: u64) -> Result<(), NoMemory>
    ensures { OnOk result (out.new.items ≡ out.old.items ++ name_field field) }
{
    if field == 0 {
        Ok(())
    } else {
        put_name_number(out, field)
    }
}

/// Puts a number in decimal behind the others, parted from them by a blank.
fn put_next(out: &mut Vec<u8>, n: u64) -> Result<(), NoMemory>
    ensures { OnOk result (out.new.items ≡ out.old.items ++ (32 ∷ decimal n)) }
{
    out.push(b' ')?;
    put_number(out, n)
}

fn put_source(out: &mut Vec<u8>, source: SourceName) -> Result<(), NoMemory>
    ensures { OnOk result (out.new.items ≡ out.old.items ++ source_text source) }
{
    match source {
        SourceName::Base => put(out, b"base"),
        SourceName::Mask => put(out, b"mask"),
    }
}

fn put_counted(out: &mut Vec<u8>, words: &[u8], n: u64) -> Result<(), NoMemory>
    ensures { OnOk result (out.new.items ≡ out.old.items ++ (words.now ++ decimal n)) }
{
    put(out, words)?;
    put_number(out, n)
}

fn put_named(out: &mut Vec<u8>, words: &[u8], name: &Text) -> Result<(), NoMemory>
    ensures { OnOk result (out.new.items ≡ out.old.items ++ (words.now ++ name.now)) }
{
    put(out, words)?;
    put(out, name.as_slice())?;
    Ok(())
}

fn put_following(out: &mut Vec<u8>, reply: &Reply) -> Result<(), NoMemory>
    ensures { OnOk result (out.new.items ≡ out.old.items ++ flat_map as_line (following reply.now)) }
{
    match reply {
        Reply::Done => Ok(()),
        Reply::Rows(rows) => put_rows(out, rows),
        Reply::Refused(_) => Ok(()),
    }
}

fn put_rows(out: &mut Vec<u8>, rows: &Rows) -> Result<(), NoMemory>
    ensures { OnOk result (out.new.items ≡ out.old.items ++ flat_map as_line (map row_text rows.now.rows)) }
{
    'rows: for row in 0..rows.len() {
        put_row(out, rows, row)?;
    }
    Ok(())
}

/// Puts a row, each value with the byte that ends it: a tab, or a line feed behind the last.
fn put_row(out: &mut Vec<u8>, rows: &Rows, row: usize) -> Result<(), NoMemory>
    requires { row < length rows.now.rows }
    ensures { OnOk result
        (out.new.items ≡ out.old.items ++ as_line (row_text (slice_index_or rows.now.rows row []))) }
{
    let columns = rows.kinds().len();
    if columns == 0 {
        out.push(b'\n')?;
        return Ok(());
    }
    let last = columns - 1;
    'columns: for column in 0..last {
        put_cell(out, rows.cell(row, column), b'\t')?;
    }
    put_cell(out, rows.cell(row, last), b'\n')?;
    Ok(())
}

/// Puts a value, and the byte that ends it.
fn put_cell(out: &mut Vec<u8>, cell: Cell<'_>, end: u8) -> Result<(), NoMemory>
    ensures { OnOk result (out.new.items ≡ out.old.items ++ (value_text (value_of cell.entry) ++ end ∷ [])) }
{
    match cell {
        Cell::Num(n) => put_ended(out, n, end),
        Cell::Text(text) => {
            escape(text.as_slice(), out)?;
            out.push(end)?;
            Ok(())
        }
    }
}

/// Puts a number in decimal, and the byte that ends it, at once.
fn put_ended(out: &mut Vec<u8>, n: u64, end: u8) -> Result<(), NoMemory>
    ensures { OnOk result (out.new.items ≡ out.old.items ++ (decimal n ++ end ∷ [])) }
{
    // The digits end before the last byte.
    let mut digits = [end; 21];
    let start = write_digits(n, &mut digits, 20);
    out.extend_from_slice(&digits[start..])?;
    Ok(())
}
