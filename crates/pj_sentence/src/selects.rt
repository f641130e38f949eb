//! Reads SELECT and EXPLAIN.
ghost use Rattle.std.specs.Prelude.{◌≡◌};
ghost use Rattle.pj_phrase.specs.Given.{Gives};
ghost use Rattle.pj_grammar.specs.parsing.Values.{value_at};
ghost use Rattle.pj_grammar.specs.grammar.Words.{or_empty};
ghost use Rattle.pj_grammar.specs.parsing.Selects.{select_at, explain_at};

pub(crate) mod clauses;
pub(crate) mod select_items;

use crate::selects::clauses::{maybe_groups, maybe_limit, maybe_order, maybe_where};
use crate::selects::select_items::item_list;
use pj_grammar::types::TreeSelect;
use pj_phrase::settings::own_sets;
use pj_phrase::tokens::rest::{Fault, Rest};
use pj_phrase::tokens::single::{keyword, name};
use pj_value::List;
use std::alloc::Global;

/// The list, empty where there is none.
fn or_empty<T>(alloc: Global, list: Option<List<T>>) -> List<T>
    ensures { result ≡ or_empty list }
{
    match list {
        Some(list) => list,
        None => List::from_vec(Vec::new(alloc)),
    }
}

/// A SELECT.
#[tactic(auto, unfolding(pj_grammar::specs::parsing::Selects::select_at))]
pub(crate) fn select<'a>(
    alloc: Global,
    most: usize,
    rest: Rest<'a>,
) -> Result<(TreeSelect, Rest<'a>), Fault<'a>>
    ensures { Gives (λ x. x) result (select_at (value_at most) rest.entry) }
{
    let rest = keyword(b"SELECT", rest)?;
    let (items, rest) = item_list(alloc, most, rest)?;
    let rest = keyword(b"FROM", rest)?;
    let (table, rest) = name(alloc, rest)?;
    let (filter, rest) = maybe_where(alloc, most, rest)?;
    let (groups, rest) = maybe_groups(alloc, most, rest)?;
    let (order, rest) = maybe_order(alloc, most, rest)?;
    let (limit, rest) = maybe_limit(rest)?;
    let (sets, rest) = own_sets(alloc, rest)?;
    let query = TreeSelect {
        items,
        table,
        filter,
        groups: or_empty(alloc, groups),
        order: or_empty(alloc, order),
        limit,
        sets,
    };
    Ok((query, rest))
}

/// The SELECT that EXPLAIN is asked of.
#[tactic(auto, unfolding(pj_grammar::specs::parsing::Selects::explain_at))]
pub(crate) fn explain<'a>(
    alloc: Global,
    most: usize,
    rest: Rest<'a>,
) -> Result<(TreeSelect, Rest<'a>), Fault<'a>>
    ensures { Gives (λ x. x) result (explain_at (value_at most) rest.entry) }
{
    let rest = keyword(b"EXPLAIN", rest)?;
    let rest = if rest.begins_keyword(b"PLAN") {
        keyword(b"PLAN", rest)?
    } else {
        rest
    };
    select(alloc, most, rest)
}
