//! Reads a statement, which its first word tells.
ghost use Rattle.pj_phrase.specs.Given.{Gives};
ghost use Rattle.pj_grammar.specs.parsing.Values.{value_at};
ghost use Rattle.pj_grammar.specs.parsing.Statements.{delete_at, alter_at, optimize_at, set_session_at};
ghost use Rattle.pj_grammar.specs.parsing.Statements.{table_behind_at, statement_at, sentence_at};

use crate::actions::action;
use crate::creates::create;
use crate::row_lists::insert;
use crate::selects::clauses::where_value;
use crate::selects::{explain, select};
use pj_grammar::types::Statement;
use pj_lex::Symbol;
use pj_phrase::settings::{own_sets, set_list};
use pj_phrase::tokens::rest::{Fault, Rest};
use pj_phrase::tokens::single::{keyword, name, pass_over};
use pj_value::Text;
use std::alloc::Global;

/// DELETE.
#[tactic(auto, unfolding(pj_grammar::specs::parsing::Statements::delete_at))]
fn delete<'a>(
    alloc: Global,
    most: usize,
    rest: Rest<'a>,
) -> Result<(Statement, Rest<'a>), Fault<'a>>
    ensures { Gives (λ x. x) result (delete_at (value_at most) rest.entry) }
{
    let rest = keyword(b"DELETE", rest)?;
    let rest = keyword(b"FROM", rest)?;
    let (table, rest) = name(alloc, rest)?;
    let (filter, rest) = where_value(alloc, most, rest)?;
    let (sets, rest) = own_sets(alloc, rest)?;
    let delete = Statement::Delete {
        table,
        filter,
        sets,
    };
    Ok((delete, rest))
}

/// ALTER TABLE.
#[tactic(auto, unfolding(pj_grammar::specs::parsing::Statements::alter_at))]
fn alter<'a>(alloc: Global, most: usize, rest: Rest<'a>) -> Result<(Statement, Rest<'a>), Fault<'a>>
    ensures { Gives (λ x. x) result (alter_at (value_at most) rest.entry) }
{
    let rest = keyword(b"ALTER", rest)?;
    let rest = keyword(b"TABLE", rest)?;
    let (table, rest) = name(alloc, rest)?;
    let (action, rest) = action(alloc, most, rest)?;
    let (sets, rest) = own_sets(alloc, rest)?;
    let alter = Statement::Alter {
        table,
        action,
        sets,
    };
    Ok((alter, rest))
}

/// OPTIMIZE TABLE.
#[tactic(auto, unfolding(pj_grammar::specs::parsing::Statements::optimize_at))]
fn optimize<'a>(alloc: Global, rest: Rest<'a>) -> Result<(Statement, Rest<'a>), Fault<'a>>
    ensures { Gives (λ x. x) result (optimize_at rest.entry) }
{
    let rest = keyword(b"OPTIMIZE", rest)?;
    let rest = keyword(b"TABLE", rest)?;
    let (table, rest) = name(alloc, rest)?;
    let rest = keyword(b"FINAL", rest)?;
    Ok((Statement::Optimize(table), rest))
}

/// SET.
#[tactic(auto, unfolding(pj_grammar::specs::parsing::Statements::set_session_at))]
fn set_session<'a>(alloc: Global, rest: Rest<'a>) -> Result<(Statement, Rest<'a>), Fault<'a>>
    ensures { Gives (λ x. x) result (set_session_at rest.entry) }
{
    let rest = keyword(b"SET", rest)?;
    let (sets, rest) = set_list(alloc, rest)?;
    Ok((Statement::Set(sets), rest))
}

/// The name of a table behind the keyword of these capitals.
#[tactic(auto, unfolding(pj_grammar::specs::parsing::Statements::table_behind_at))]
fn table_behind<'a>(
    alloc: Global,
    capitals: &[u8],
    rest: Rest<'a>,
) -> Result<(Text, Rest<'a>), Fault<'a>>
    ensures { Gives (λ x. x) result (table_behind_at capitals.now rest.entry) }
{
    let rest = keyword(capitals, rest)?;
    name(alloc, rest)
}

/// A statement, which its first word tells.
#[tactic(auto, unfolding(pj_grammar::specs::parsing::Statements::statement_at))]
fn statement_of<'a>(
    alloc: Global,
    most: usize,
    rest: Rest<'a>,
) -> Result<(Statement, Rest<'a>), Fault<'a>>
    ensures { Gives (λ x. x) result (statement_at (value_at most) rest.entry) }
{
    if rest.begins_keyword(b"CREATE") {
        return create(alloc, most, rest);
    }
    if rest.begins_keyword(b"INSERT") {
        return insert(alloc, rest);
    }
    if rest.begins_keyword(b"SELECT") {
        let (query, rest) = select(alloc, most, rest)?;
        return Ok((Statement::Select(query), rest));
    }
    if rest.begins_keyword(b"EXPLAIN") {
        let (query, rest) = explain(alloc, most, rest)?;
        return Ok((Statement::Explain(query), rest));
    }
    if rest.begins_keyword(b"DELETE") {
        return delete(alloc, most, rest);
    }
    if rest.begins_keyword(b"ALTER") {
        return alter(alloc, most, rest);
    }
    if rest.begins_keyword(b"OPTIMIZE") {
        return optimize(alloc, rest);
    }
    if rest.begins_keyword(b"SET") {
        return set_session(alloc, rest);
    }
    if rest.begins_keyword(b"MERGE") {
        let (table, rest) = table_behind(alloc, b"MERGE", rest)?;
        return Ok((Statement::Merge(table), rest));
    }
    let (table, rest) = table_behind(alloc, b"MUTATE", rest)?;
    Ok((Statement::Mutate(table), rest))
}

/// A statement, with a semicolon behind it or without.
#[tactic(auto, unfolding(pj_grammar::specs::parsing::Statements::sentence_at))]
pub fn sentence<'a>(
    alloc: Global,
    most: usize,
    rest: Rest<'a>,
) -> Result<(Statement, Rest<'a>), Fault<'a>>
    ensures { Gives (λ x. x) result (sentence_at (value_at most) rest.entry) }
{
    let (statement, rest) = statement_of(alloc, most, rest)?;
    Ok((statement, pass_over(Symbol::Semicolon, rest)))
}
