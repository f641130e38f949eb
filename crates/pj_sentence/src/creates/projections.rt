//! Reads the definition of a projection.
ghost use Rattle.pj_phrase.specs.Given.{Gives};
ghost use Rattle.pj_grammar.specs.parsing.Words.{list_name_at};
ghost use Rattle.pj_grammar.specs.parsing.Values.{value_at};
ghost use Rattle.pj_grammar.specs.parsing.Tables.{projection_order_at, maybe_projection_order_at};
ghost use Rattle.pj_grammar.specs.parsing.Tables.{proj_behind_at, proj_at};

use crate::selects::clauses::maybe_groups;
use crate::selects::select_items::item_list;
use pj_grammar::types::TreeProj;
use pj_lex::Symbol;
use pj_phrase::tokens::name_lists::order_names;
use pj_phrase::tokens::rest::{Fault, Rest};
use pj_phrase::tokens::single::{keyword, list_name, sign};
use pj_value::{List, Text};
use std::alloc::Global;

/// ORDER BY and its names.
#[tactic(auto, unfolding(pj_grammar::specs::parsing::Tables::projection_order_at))]
fn projection_order<'a>(alloc: Global, rest: Rest<'a>) -> Result<(List<Text>, Rest<'a>), Fault<'a>>
    ensures { Gives (λ x. x) result (projection_order_at rest.entry) }
{
    let rest = keyword(b"ORDER", rest)?;
    let rest = keyword(b"BY", rest)?;
    order_names(alloc, rest)
}

/// ORDER BY, or nothing.
#[tactic(auto, unfolding(pj_grammar::specs::parsing::Tables::maybe_projection_order_at))]
fn maybe_projection_order<'a>(
    alloc: Global,
    rest: Rest<'a>,
) -> Result<(Option<List<Text>>, Rest<'a>), Fault<'a>>
    ensures { Gives (λ x. x) result (maybe_projection_order_at rest.entry) }
{
    if !rest.begins_keyword(b"ORDER") {
        return Ok((None, rest));
    }
    let (order, rest) = projection_order(alloc, rest)?;
    Ok((Some(order), rest))
}

/// The definition of the projection of this name, from the parenthesis behind the name on.
#[tactic(auto, unfolding(pj_grammar::specs::parsing::Tables::proj_behind_at))]
pub(crate) fn proj_behind<'a>(
    alloc: Global,
    most: usize,
    name: Text,
    rest: Rest<'a>,
) -> Result<(TreeProj, Rest<'a>), Fault<'a>>
    ensures { Gives (λ x. x) result (proj_behind_at (value_at most) name rest.entry) }
{
    let rest = sign(Symbol::Left, rest)?;
    let rest = keyword(b"SELECT", rest)?;
    let (items, rest) = item_list(alloc, most, rest)?;
    let (groups, rest) = maybe_groups(alloc, most, rest)?;
    let (order, rest) = maybe_projection_order(alloc, rest)?;
    let rest = sign(Symbol::Right, rest)?;
    let projection = TreeProj {
        name,
        items,
        groups,
        order,
    };
    Ok((projection, rest))
}

/// A projection's name and definition.
pub(crate) fn proj<'a>(
    alloc: Global,
    most: usize,
    rest: Rest<'a>,
) -> Result<(TreeProj, Rest<'a>), Fault<'a>>
    ensures { Gives (λ x. x) result (proj_at list_name_at (value_at most) rest.entry) }
{
    let (name, rest) = list_name(alloc, rest)?;
    proj_behind(alloc, most, name, rest)
}
