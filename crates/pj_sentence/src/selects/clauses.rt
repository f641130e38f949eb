//! Reads the clauses of a SELECT: WHERE, GROUP BY, ORDER BY and LIMIT.
ghost use Rattle.std.specs.Prelude.{◌≡◌};
ghost use Rattle.pj_grammar.specs.parsing.Parser.{begins};
ghost use Rattle.pj_phrase.specs.Given.{Gives};
ghost use Rattle.pj_grammar.specs.parsing.Values.{value_at};
ghost use Rattle.pj_grammar.specs.parsing.Selects.{begins_direction, direction_at, order_key_at, values_at};
ghost use Rattle.pj_grammar.specs.parsing.Selects.{group_by_at, order_keys_at, order_by_at, where_value_at};
ghost use Rattle.pj_grammar.specs.parsing.Selects.{maybe_where_at, maybe_groups_at, maybe_order_at};
ghost use Rattle.pj_grammar.specs.parsing.Selects.{maybe_limit_at};

use crate::selects::select_items::call_or_value;
use pj_grammar::types::{Tree, TreeOrder};
use pj_lex::Symbol;
use pj_phrase::tokens::rest::{Fault, Rest};
use pj_phrase::tokens::single::{keyword, number, sign};
use pj_phrase::values::trees::value;
use pj_value::List;
use std::alloc::Global;

/// Whether ASC or DESC follows.
#[tactic(auto, unfolding(pj_grammar::specs::parsing::Parser::begins))]
fn begins_direction(rest: &Rest<'_>) -> bool
    ensures { result ≡ begins begins_direction rest.now }
{
    rest.begins_keyword(b"ASC") || rest.begins_keyword(b"DESC")
}

/// ASC, DESC or nothing, and whether it is DESC.
#[tactic(auto, unfolding(pj_grammar::specs::parsing::Selects::direction_at))]
fn direction<'a>(rest: Rest<'a>) -> Result<(bool, Rest<'a>), Fault<'a>>
    ensures { Gives (λ x. x) result (direction_at rest.entry) }
{
    if !begins_direction(&rest) {
        return Ok((false, rest));
    }
    if rest.begins_keyword(b"ASC") {
        return Ok((false, keyword(b"ASC", rest)?));
    }
    Ok((true, keyword(b"DESC", rest)?))
}

/// A key of ORDER BY.
#[tactic(auto, unfolding(pj_grammar::specs::parsing::Selects::order_key_at))]
fn order_key<'a>(
    alloc: Global,
    most: usize,
    rest: Rest<'a>,
) -> Result<(TreeOrder, Rest<'a>), Fault<'a>>
    ensures { Gives (λ x. x) result (order_key_at (value_at most) rest.entry) }
{
    let (item, rest) = call_or_value(alloc, most, rest)?;
    let (descending, rest) = direction(rest)?;
    Ok((TreeOrder { item, descending }, rest))
}

/// Values between commas.
#[tactic(auto, unfolding(pj_grammar::specs::parsing::Selects::values_at))]
fn values<'a>(
    alloc: Global,
    most: usize,
    rest: Rest<'a>,
) -> Result<(List<Tree>, Rest<'a>), Fault<'a>>
    ensures { Gives (λ x. x) result (values_at (value_at most) rest.entry) }
{
    let (first, rest) = value(alloc, most, rest)?;
    let mut rest = rest;
    let mut values = Vec::new(alloc);
    values.push(first)?;
    // There are no more values than tokens.
    'values: for _i in 0..rest.len() {
        if !rest.begins_symbol(Symbol::Comma) {
            break;
        }
        let behind = sign(Symbol::Comma, rest)?;
        let (one, behind) = value(alloc, most, behind)?;
        values.push(one)?;
        rest = behind;
    }
    Ok((List::from_vec(values), rest))
}

/// GROUP BY and its values.
#[tactic(auto, unfolding(pj_grammar::specs::parsing::Selects::group_by_at))]
fn group_by<'a>(
    alloc: Global,
    most: usize,
    rest: Rest<'a>,
) -> Result<(List<Tree>, Rest<'a>), Fault<'a>>
    ensures { Gives (λ x. x) result (group_by_at (value_at most) rest.entry) }
{
    let rest = keyword(b"GROUP", rest)?;
    let rest = keyword(b"BY", rest)?;
    values(alloc, most, rest)
}

/// Keys of ORDER BY between commas.
#[tactic(auto, unfolding(pj_grammar::specs::parsing::Selects::order_keys_at))]
fn order_keys<'a>(
    alloc: Global,
    most: usize,
    rest: Rest<'a>,
) -> Result<(List<TreeOrder>, Rest<'a>), Fault<'a>>
    ensures { Gives (λ x. x) result (order_keys_at (value_at most) rest.entry) }
{
    let (first, rest) = order_key(alloc, most, rest)?;
    let mut rest = rest;
    let mut keys = Vec::new(alloc);
    keys.push(first)?;
    // There are no more keys than tokens.
    'keys: for _i in 0..rest.len() {
        if !rest.begins_symbol(Symbol::Comma) {
            break;
        }
        let behind = sign(Symbol::Comma, rest)?;
        let (one, behind) = order_key(alloc, most, behind)?;
        keys.push(one)?;
        rest = behind;
    }
    Ok((List::from_vec(keys), rest))
}

/// ORDER BY and its keys.
#[tactic(auto, unfolding(pj_grammar::specs::parsing::Selects::order_by_at))]
fn order_by<'a>(
    alloc: Global,
    most: usize,
    rest: Rest<'a>,
) -> Result<(List<TreeOrder>, Rest<'a>), Fault<'a>>
    ensures { Gives (λ x. x) result (order_by_at (value_at most) rest.entry) }
{
    let rest = keyword(b"ORDER", rest)?;
    let rest = keyword(b"BY", rest)?;
    order_keys(alloc, most, rest)
}

/// WHERE and its condition.
#[tactic(auto, unfolding(pj_grammar::specs::parsing::Selects::where_value_at))]
pub(crate) fn where_value<'a>(
    alloc: Global,
    most: usize,
    rest: Rest<'a>,
) -> Result<(Tree, Rest<'a>), Fault<'a>>
    ensures { Gives (λ x. x) result (where_value_at (value_at most) rest.entry) }
{
    let rest = keyword(b"WHERE", rest)?;
    value(alloc, most, rest)
}

/// WHERE, or nothing.
#[tactic(auto, unfolding(pj_grammar::specs::parsing::Selects::maybe_where_at))]
pub(crate) fn maybe_where<'a>(
    alloc: Global,
    most: usize,
    rest: Rest<'a>,
) -> Result<(Option<Tree>, Rest<'a>), Fault<'a>>
    ensures { Gives (λ x. x) result (maybe_where_at (value_at most) rest.entry) }
{
    if !rest.begins_keyword(b"WHERE") {
        return Ok((None, rest));
    }
    let (filter, rest) = where_value(alloc, most, rest)?;
    Ok((Some(filter), rest))
}

/// GROUP BY, or nothing.
#[tactic(auto, unfolding(pj_grammar::specs::parsing::Selects::maybe_groups_at))]
pub(crate) fn maybe_groups<'a>(
    alloc: Global,
    most: usize,
    rest: Rest<'a>,
) -> Result<(Option<List<Tree>>, Rest<'a>), Fault<'a>>
    ensures { Gives (λ x. x) result (maybe_groups_at (value_at most) rest.entry) }
{
    if !rest.begins_keyword(b"GROUP") {
        return Ok((None, rest));
    }
    let (groups, rest) = group_by(alloc, most, rest)?;
    Ok((Some(groups), rest))
}

/// ORDER BY, or nothing.
#[tactic(auto, unfolding(pj_grammar::specs::parsing::Selects::maybe_order_at))]
pub(crate) fn maybe_order<'a>(
    alloc: Global,
    most: usize,
    rest: Rest<'a>,
) -> Result<(Option<List<TreeOrder>>, Rest<'a>), Fault<'a>>
    ensures { Gives (λ x. x) result (maybe_order_at (value_at most) rest.entry) }
{
    if !rest.begins_keyword(b"ORDER") {
        return Ok((None, rest));
    }
    let (order, rest) = order_by(alloc, most, rest)?;
    Ok((Some(order), rest))
}

/// LIMIT and its number, or nothing.
#[tactic(auto, unfolding(pj_grammar::specs::parsing::Selects::maybe_limit_at))]
pub(crate) fn maybe_limit<'a>(rest: Rest<'a>) -> Result<(Option<u64>, Rest<'a>), Fault<'a>>
    ensures { Gives (λ x. x) result (maybe_limit_at rest.entry) }
{
    if !rest.begins_keyword(b"LIMIT") {
        return Ok((None, rest));
    }
    let rest = keyword(b"LIMIT", rest)?;
    let (limit, rest) = number(rest)?;
    Ok((Some(limit), rest))
}
