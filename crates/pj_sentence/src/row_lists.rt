//! Reads INSERT. It takes time in step with its tokens. What is done for each value is inlined: with calls of
//! their own, reading the rows takes half as long again.
ghost use Rattle.std.specs.Prelude.{◌≡◌, [], OnOk};
ghost use Rattle.pj_phrase.specs.Given.{Gives, both_and};
ghost use Rattle.pj_grammar.specs.parsing.Statements.{literal_at, literals_at, row_at, rows_at, target_at};
ghost use Rattle.pj_grammar.specs.parsing.Statements.{insert_at};

use pj_grammar::RowsSoFar;
use pj_grammar::types::{Statement, ValueRows};
use pj_lex::Symbol;
use pj_phrase::tokens::name_lists::names_in_parens;
use pj_phrase::tokens::rest::{Fault, Rest};
use pj_phrase::tokens::single::{function_name, keyword, list_name, number, sign, text};
use pj_value::{List, Text, Value};
use std::alloc::Global;

/// A number or a text.
#[inline(always)]
#[tactic(auto, unfolding(pj_grammar::specs::parsing::Statements::literal_at))]
fn literal<'a>(alloc: Global, rest: Rest<'a>) -> Result<(Value, Rest<'a>), Fault<'a>>
    ensures { Gives (λ x. x) result (literal_at rest.entry) }
{
    if rest.begins_number() {
        let (n, rest) = number(rest)?;
        return Ok((Value::Num(n), rest));
    }
    let (bytes, rest) = text(alloc, rest)?;
    Ok((Value::Text(bytes), rest))
}

/// Numbers and texts between commas, put into a row that has no value yet.
#[inline(always)]
#[tactic(auto, unfolding(pj_grammar::specs::parsing::Statements::literals_at))]
fn literals<'a>(alloc: Global, rows: &mut RowsSoFar, rest: Rest<'a>) -> Result<Rest<'a>, Fault<'a>>
    requires { rows.old.begun ≡ [] }
    ensures read { Gives (λ behind. (rows.new.begun, behind)) result (literals_at rest.entry) }
    ensures whole { OnOk result (rows.new.whole ≡ rows.old.whole) }
{
    let (first, rest) = literal(alloc, rest)?;
    let mut rest = rest;
    rows.push(first)?;
    // There are no more values than tokens.
    'values: for _i in 0..rest.len() {
        if !rest.begins_symbol(Symbol::Comma) {
            break;
        }
        let behind = sign(Symbol::Comma, rest)?;
        let (one, behind) = literal(alloc, behind)?;
        rows.push(one)?;
        rest = behind;
    }
    Ok(rest)
}

/// The values of a row, in parentheses, put into a row that has no value yet.
#[inline(always)]
#[tactic(auto, unfolding(pj_grammar::specs::parsing::Statements::row_at))]
fn row<'a>(alloc: Global, rows: &mut RowsSoFar, rest: Rest<'a>) -> Result<Rest<'a>, Fault<'a>>
    requires { rows.old.begun ≡ [] }
    ensures read { Gives (λ behind. (rows.new.begun, behind)) result (row_at rest.entry) }
    ensures whole { OnOk result (rows.new.whole ≡ rows.old.whole) }
{
    let rest = sign(Symbol::Left, rest)?;
    let rest = literals(alloc, rows, rest)?;
    let rest = sign(Symbol::Right, rest)?;
    Ok(rest)
}

/// Rows between commas.
#[tactic(auto, unfolding(pj_grammar::specs::parsing::Statements::rows_at))]
fn row_list<'a>(alloc: Global, rest: Rest<'a>) -> Result<(ValueRows, Rest<'a>), Fault<'a>>
    ensures { Gives (λ x. x) result (rows_at rest.entry) }
{
    let mut rows = RowsSoFar::new(alloc);
    let mut rest = row(alloc, &mut rows, rest)?;
    rows.end_row()?;
    // There are no more rows than tokens.
    'rows: for _i in 0..rest.len() {
        if !rest.begins_symbol(Symbol::Comma) {
            break;
        }
        let behind = sign(Symbol::Comma, rest)?;
        rest = row(alloc, &mut rows, behind)?;
        rows.end_row()?;
    }
    Ok((rows.finish(), rest))
}

/// The table that gets the rows, and the columns that they fill, where these are named.
#[tactic(auto, unfolding(pj_grammar::specs::parsing::Statements::target_at))]
fn target<'a>(
    alloc: Global,
    rest: Rest<'a>,
) -> Result<(Text, Option<List<Text>>, Rest<'a>), Fault<'a>>
    ensures { Gives both_and result (target_at rest.entry) }
{
    if rest.begins_function_name() {
        let (table, rest) = function_name(alloc, rest)?;
        return Ok((table, None, rest));
    }
    let (table, rest) = list_name(alloc, rest)?;
    if !rest.begins_symbol(Symbol::Left) {
        return Ok((table, None, rest));
    }
    let (columns, rest) = names_in_parens(alloc, rest)?;
    Ok((table, Some(columns), rest))
}

/// INSERT.
#[tactic(auto, unfolding(pj_grammar::specs::parsing::Statements::insert_at))]
pub(crate) fn insert<'a>(alloc: Global, rest: Rest<'a>) -> Result<(Statement, Rest<'a>), Fault<'a>>
    ensures { Gives (λ x. x) result (insert_at rest.entry) }
{
    let rest = keyword(b"INSERT", rest)?;
    let rest = keyword(b"INTO", rest)?;
    let (table, columns, rest) = target(alloc, rest)?;
    let rest = keyword(b"VALUES", rest)?;
    let (rows, rest) = row_list(alloc, rest)?;
    let insert = Statement::Insert {
        table,
        columns,
        rows,
    };
    Ok((insert, rest))
}
