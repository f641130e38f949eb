//! Reads CREATE TABLE.
ghost use Rattle.pj_phrase.specs.Given.{Gives, nothing_and};
ghost use Rattle.pj_grammar.specs.parsing.Values.{value_at};
ghost use Rattle.pj_grammar.specs.parsing.Tables.{engine_at, table_set_list_at, table_sets_at, table_key_at};
ghost use Rattle.pj_grammar.specs.parsing.Tables.{create_at};

pub(crate) mod members;
pub(crate) mod projections;

use crate::creates::members::members;
use pj_grammar::types::{Statement, TableWord};
use pj_lex::Symbol;
use pj_phrase::settings::table_set;
use pj_phrase::tokens::name_lists::key;
use pj_phrase::tokens::rest::{Fault, Rest};
use pj_phrase::tokens::single::{exactly, keyword, list_name, sign};
use pj_value::{List, Text};
use std::alloc::Global;

/// The engine, with or without parentheses.
#[tactic(auto, unfolding(pj_grammar::specs::parsing::Tables::engine_at))]
fn engine<'a>(rest: Rest<'a>) -> Result<Rest<'a>, Fault<'a>>
    ensures { Gives nothing_and result (engine_at rest.entry) }
{
    let rest = keyword(b"ENGINE", rest)?;
    let rest = sign(Symbol::Eq, rest)?;
    let rest = exactly(b"MergeTree", rest)?;
    if !rest.begins_symbol(Symbol::Left) {
        return Ok(rest);
    }
    let rest = sign(Symbol::Left, rest)?;
    sign(Symbol::Right, rest)
}

/// Settings of a table between commas.
#[tactic(auto, unfolding(pj_grammar::specs::parsing::Tables::table_set_list_at))]
fn table_set_list<'a>(
    alloc: Global,
    rest: Rest<'a>,
) -> Result<(List<TableWord>, Rest<'a>), Fault<'a>>
    ensures { Gives (λ x. x) result (table_set_list_at rest.entry) }
{
    let (first, rest) = table_set(rest)?;
    let mut rest = rest;
    let mut sets = Vec::new(alloc);
    sets.push(first)?;
    // There are no more settings than tokens.
    'sets: for _i in 0..rest.len() {
        if !rest.begins_symbol(Symbol::Comma) {
            break;
        }
        let behind = sign(Symbol::Comma, rest)?;
        let (one, behind) = table_set(behind)?;
        sets.push(one)?;
        rest = behind;
    }
    Ok((List::from_vec(sets), rest))
}

/// The settings of a table behind SETTINGS, or none.
#[tactic(auto, unfolding(pj_grammar::specs::parsing::Tables::table_sets_at))]
fn table_sets<'a>(alloc: Global, rest: Rest<'a>) -> Result<(List<TableWord>, Rest<'a>), Fault<'a>>
    ensures { Gives (λ x. x) result (table_sets_at rest.entry) }
{
    if !rest.begins_keyword(b"SETTINGS") {
        return Ok((List::from_vec(Vec::new(alloc)), rest));
    }
    let rest = keyword(b"SETTINGS", rest)?;
    table_set_list(alloc, rest)
}

/// ORDER BY and the key.
#[tactic(auto, unfolding(pj_grammar::specs::parsing::Tables::table_key_at))]
fn table_key<'a>(alloc: Global, rest: Rest<'a>) -> Result<(List<Text>, Rest<'a>), Fault<'a>>
    ensures { Gives (λ x. x) result (table_key_at rest.entry) }
{
    let rest = keyword(b"ORDER", rest)?;
    let rest = keyword(b"BY", rest)?;
    key(alloc, rest)
}

/// CREATE TABLE.
#[tactic(auto, unfolding(pj_grammar::specs::parsing::Tables::create_at))]
pub(crate) fn create<'a>(
    alloc: Global,
    most: usize,
    rest: Rest<'a>,
) -> Result<(Statement, Rest<'a>), Fault<'a>>
    ensures { Gives (λ x. x) result (create_at (value_at most) rest.entry) }
{
    let rest = keyword(b"CREATE", rest)?;
    let rest = keyword(b"TABLE", rest)?;
    let (name, rest) = list_name(alloc, rest)?;
    let (columns, projections, rest) = members(alloc, most, rest)?;
    let rest = engine(rest)?;
    let (key, rest) = table_key(alloc, rest)?;
    let (settings, rest) = table_sets(alloc, rest)?;
    let create = Statement::Create {
        name,
        columns,
        projections,
        key,
        settings,
    };
    Ok((create, rest))
}
