//! Reads an INSERT from the bytes of its body, in one pass and without a list of its tokens. An INSERT may
//! have millions of tokens, and to touch memory for them takes longer than to read them. What isn't read
//! here, is read by its tokens, and so are all errors. What is done for each number is inlined.
ghost use Rattle.std.specs.Prelude.{◌≡◌, [], IfOk, IfSome, OnOk};
ghost use Rattle.pj_insert.specs.Inserts.{IsInsert, SpellsPrefix, IsIntoPrefix};
ghost use Rattle.pj_grammar.specs.grammar.Ebnf.{optional};
ghost use Rattle.pj_grammar.specs.grammar.Words.{keyword, name, list_name, listed, in_parens};
ghost use Rattle.pj_grammar.specs.grammar.Statements.{literal, row};

use pj_grammar::RowsSoFar;
use pj_grammar::types::{Statement, ValueRows};
use pj_grammar::words::{may_name, may_name_list, spells};
use pj_lex::first::{
    first_comma, first_left, first_number, first_right, first_semicolon, first_text, first_word,
    only_blanks,
};
use pj_value::{List, NoMemory, Text, Value};
use std::alloc::Global;

/// The bytes behind the keyword of these capitals.
fn keyword<'a>(capitals: &[u8], bytes: &'a [u8]) -> Option<&'a [u8]>
    ensures { IfSome result (λ behind. SpellsPrefix 0 (keyword capitals.now) bytes.now tt behind.now) }
{
    match first_word(bytes) {
        Some((word, behind)) if spells(capitals, word) => Some(behind),
        _ => None,
    }
}

/// A name, and the bytes behind it.
fn name<'a>(bytes: &'a [u8]) -> Option<(&'a [u8], &'a [u8])>
    ensures { IfSome result (λ x. SpellsPrefix 0 name bytes.now x.0.now x.1.now) }
{
    match first_word(bytes) {
        Some((word, behind)) if may_name(word) => Some((word, behind)),
        _ => None,
    }
}

/// A name before a parenthesis, and the bytes behind it.
fn list_name<'a>(bytes: &'a [u8]) -> Option<(&'a [u8], &'a [u8])>
    ensures { IfSome result (λ x. SpellsPrefix 0 list_name bytes.now x.0.now x.1.now) }
{
    match first_word(bytes) {
        Some((word, behind)) if may_name_list(word) => Some((word, behind)),
        _ => None,
    }
}

/// Names between commas, and the bytes behind them.
fn names<'a>(alloc: Global, bytes: &'a [u8]) -> Result<Option<(List<Text>, &'a [u8])>, NoMemory>
    ensures { IfOk result (λ found. IfSome found (λ x. SpellsPrefix 0 (listed name) bytes.now x.0 x.1.now)) }
{
    let Some((first, behind)) = name(bytes) else {
        return Ok(None);
    };
    let mut names = Vec::new(alloc);
    names.push(Text::new(alloc, first)?)?;
    let mut rest = behind;
    'names: while let Some(behind) = first_comma(rest) {
        let Some((one, behind)) = name(behind) else {
            return Ok(None);
        };
        names.push(Text::new(alloc, one)?)?;
        rest = behind;
    }
    Ok(Some((List::from_vec(names), rest)))
}

/// The columns that are named in parentheses, and the bytes behind these; none where no parenthesis opens.
fn columns<'a>(
    alloc: Global,
    bytes: &'a [u8],
) -> Result<Option<(Option<List<Text>>, &'a [u8])>, NoMemory>
    ensures { IfOk result (λ found. IfSome found
        (λ x. SpellsPrefix 0 (optional (in_parens (listed name))) bytes.now x.0 x.1.now)) }
{
    let Some(inside) = first_left(bytes) else {
        return Ok(Some((None, bytes)));
    };
    let Some((names, behind)) = names(alloc, inside)? else {
        return Ok(None);
    };
    match first_right(behind) {
        Some(behind) => Ok(Some((Some(names), behind))),
        None => Ok(None),
    }
}

/// A text of at most so many bytes, and the bytes behind it.
fn text<'a>(
    alloc: Global,
    most: usize,
    bytes: &'a [u8],
) -> Result<Option<(Value, &'a [u8])>, NoMemory>
    ensures { IfOk result (λ found. IfSome found (λ x. SpellsPrefix most literal bytes.now x.0 x.1.now)) }
{
    match first_text(alloc, bytes)? {
        Some((text, behind)) if text.as_slice().len() <= most => Ok(Some((
            Value::Text(text),
            behind,
        ))),
        _ => Ok(None),
    }
}

/// A number, or a text of at most so many bytes, and the bytes behind it.
#[inline(always)]
fn literal<'a>(
    alloc: Global,
    most: usize,
    bytes: &'a [u8],
) -> Result<Option<(Value, &'a [u8])>, NoMemory>
    ensures { IfOk result (λ found. IfSome found (λ x. SpellsPrefix most literal bytes.now x.0 x.1.now)) }
{
    match first_number(bytes) {
        Some((number, behind)) => Ok(Some((Value::Num(number), behind))),
        None => text(alloc, most, bytes),
    }
}

/// Numbers and texts between commas, put into a row that has no value yet, and the bytes behind them.
#[inline(always)]
fn literals<'a>(
    alloc: Global,
    most: usize,
    rows: &mut RowsSoFar,
    bytes: &'a [u8],
) -> Result<Option<&'a [u8]>, NoMemory>
    requires { rows.old.begun ≡ [] }
    ensures read { IfOk result
        (λ found. IfSome found
        (λ rest. SpellsPrefix most (listed literal) bytes.now rows.new.begun rest.now)) }
    ensures whole { OnOk result (rows.new.whole ≡ rows.old.whole) }
{
    let Some((first, behind)) = literal(alloc, most, bytes)? else {
        return Ok(None);
    };
    rows.push(first)?;
    let mut rest = behind;
    'values: while let Some(behind) = first_comma(rest) {
        let Some((one, behind)) = literal(alloc, most, behind)? else {
            return Ok(None);
        };
        rows.push(one)?;
        rest = behind;
    }
    Ok(Some(rest))
}

/// The values of a row, in parentheses, put into a row that has no value yet, and the bytes behind them.
#[inline(always)]
fn row<'a>(
    alloc: Global,
    most: usize,
    rows: &mut RowsSoFar,
    bytes: &'a [u8],
) -> Result<Option<&'a [u8]>, NoMemory>
    requires { rows.old.begun ≡ [] }
    ensures read { IfOk result
        (λ found. IfSome found (λ rest. SpellsPrefix most row bytes.now rows.new.begun rest.now)) }
    ensures whole { OnOk result (rows.new.whole ≡ rows.old.whole) }
{
    let Some(inside) = first_left(bytes) else {
        return Ok(None);
    };
    let Some(behind) = literals(alloc, most, rows, inside)? else {
        return Ok(None);
    };
    Ok(first_right(behind))
}

/// Rows between commas, and the bytes behind them.
fn row_list<'a>(
    alloc: Global,
    most: usize,
    bytes: &'a [u8],
) -> Result<Option<(ValueRows, &'a [u8])>, NoMemory>
    ensures { IfOk result
        (λ found. IfSome found (λ x. SpellsPrefix most (listed row) bytes.now x.0 x.1.now)) }
{
    let mut rows = RowsSoFar::new(alloc);
    let Some(behind) = row(alloc, most, &mut rows, bytes)? else {
        return Ok(None);
    };
    rows.end_row()?;
    let mut rest = behind;
    'rows: while let Some(behind) = first_comma(rest) {
        let Some(behind) = row(alloc, most, &mut rows, behind)? else {
            return Ok(None);
        };
        rows.end_row()?;
        rest = behind;
    }
    Ok(Some((rows.finish(), rest)))
}

/// The table's name behind INSERT INTO, and the bytes behind it.
fn target<'a>(bytes: &'a [u8]) -> Option<(&'a [u8], &'a [u8])>
    ensures { IfSome result (λ x. IsIntoPrefix bytes.now x.0.now x.1.now) }
{
    let behind = keyword(b"INSERT", bytes)?;
    let behind = keyword(b"INTO", behind)?;
    list_name(behind)
}

/// The INSERT that a body spells, where no text of it has more bytes than `most`. None says nothing of the
/// body: it may be no INSERT, have an error, a longer text or a table with a function's name, and its tokens
/// tell. Takes time linear in the body, and memory for the values, one text that is too long among them.
pub fn read_insert(alloc: Global, body: &[u8], most: usize) -> Result<Option<Statement>, NoMemory>
    ensures { IfOk result (λ read. IfSome read (IsInsert most body.now)) }
{
    let Some((table, behind)) = target(body) else {
        return Ok(None);
    };
    let Some((columns, behind)) = columns(alloc, behind)? else {
        return Ok(None);
    };
    let Some(behind) = keyword(b"VALUES", behind) else {
        return Ok(None);
    };
    let Some((rows, behind)) = row_list(alloc, most, behind)? else {
        return Ok(None);
    };
    if !only_blanks(first_semicolon(behind).unwrap_or(behind)) {
        return Ok(None);
    }
    let table = Text::new(alloc, table)?;
    Ok(Some(Statement::Insert {
        table,
        columns,
        rows,
    }))
}
