//! Reads lists of names.
ghost use Rattle.pj_phrase.specs.Given.{Gives};
ghost use Rattle.pj_grammar.specs.parsing.Tables.{names_at, names_in_parens_at, order_names_at, key_at};

use crate::tokens::rest::{Fault, Rest};
use crate::tokens::single::{name, sign};
use pj_lex::Symbol;
use pj_value::{List, Text};
use std::alloc::Global;

/// Names between commas.
#[tactic(auto, unfolding(pj_grammar::specs::parsing::Tables::names_at))]
fn names<'a>(alloc: Global, rest: Rest<'a>) -> Result<(List<Text>, Rest<'a>), Fault<'a>>
    ensures { Gives (λ x. x) result (names_at rest.entry) }
{
    let (first, rest) = name(alloc, rest)?;
    let mut rest = rest;
    let mut names = Vec::new(alloc);
    names.push(first)?;
    // There are no more names than tokens.
    'names: for _i in 0..rest.len() {
        if !rest.begins_symbol(Symbol::Comma) {
            break;
        }
        let behind = sign(Symbol::Comma, rest)?;
        let (one, behind) = name(alloc, behind)?;
        names.push(one)?;
        rest = behind;
    }
    Ok((List::from_vec(names), rest))
}

/// Names between commas, in parentheses.
#[tactic(auto, unfolding(pj_grammar::specs::parsing::Tables::names_in_parens_at))]
pub fn names_in_parens<'a>(
    alloc: Global,
    rest: Rest<'a>,
) -> Result<(List<Text>, Rest<'a>), Fault<'a>>
    ensures { Gives (λ x. x) result (names_in_parens_at rest.entry) }
{
    let rest = sign(Symbol::Left, rest)?;
    let (names, rest) = names(alloc, rest)?;
    let rest = sign(Symbol::Right, rest)?;
    Ok((names, rest))
}

/// The names of a projection's ORDER BY: names between commas, in parentheses or not.
#[tactic(auto, unfolding(pj_grammar::specs::parsing::Tables::order_names_at))]
pub fn order_names<'a>(alloc: Global, rest: Rest<'a>) -> Result<(List<Text>, Rest<'a>), Fault<'a>>
    ensures { Gives (λ x. x) result (order_names_at rest.entry) }
{
    if rest.begins_symbol(Symbol::Left) {
        names_in_parens(alloc, rest)
    } else {
        names(alloc, rest)
    }
}

/// The names of a table's key: names in parentheses, or one name.
#[tactic(auto, unfolding(pj_grammar::specs::parsing::Tables::key_at))]
pub fn key<'a>(alloc: Global, rest: Rest<'a>) -> Result<(List<Text>, Rest<'a>), Fault<'a>>
    ensures { Gives (λ x. x) result (key_at rest.entry) }
{
    if rest.begins_symbol(Symbol::Left) {
        return names_in_parens(alloc, rest);
    }
    let (one, rest) = name(alloc, rest)?;
    let mut names = Vec::new(alloc);
    names.push(one)?;
    Ok((List::from_vec(names), rest))
}
