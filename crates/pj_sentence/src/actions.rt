//! Reads what ALTER TABLE does.
ghost use Rattle.pj_phrase.specs.Given.{Gives, both_and};
ghost use Rattle.pj_grammar.specs.parsing.Values.{value_at};
ghost use Rattle.pj_grammar.specs.parsing.Statements.{maybe_there_at, projection_there_at};
ghost use Rattle.pj_grammar.specs.parsing.Statements.{maybe_not_there_at};
ghost use Rattle.pj_grammar.specs.parsing.Statements.{add_at, assign_at, assigns_at, update_at};
ghost use Rattle.pj_grammar.specs.parsing.Statements.{delete_rows_at, modify_at, action_at};

use crate::creates::projections::{proj, proj_behind};
use crate::selects::clauses::where_value;
use pj_grammar::types::{TreeAction, TreeAssign};
use pj_lex::Symbol;
use pj_phrase::settings::mode;
use pj_phrase::tokens::rest::{Fault, Rest};
use pj_phrase::tokens::single::{keyword, list_name_but_if, name, name_but_if, sign};
use pj_phrase::values::trees::value;
use pj_value::{List, Text};
use std::alloc::Global;

/// A name, and whether IF EXISTS stands before it.
#[tactic(auto, unfolding(pj_grammar::specs::parsing::Statements::maybe_there_at))]
fn maybe_there<'a>(alloc: Global, rest: Rest<'a>) -> Result<(bool, Text, Rest<'a>), Fault<'a>>
    ensures { Gives both_and result (maybe_there_at rest.entry) }
{
    if rest.begins_keyword(b"IF") {
        let rest = keyword(b"IF", rest)?;
        let rest = keyword(b"EXISTS", rest)?;
        let (name, rest) = name(alloc, rest)?;
        return Ok((true, name, rest));
    }
    let (name, rest) = name_but_if(alloc, rest)?;
    Ok((false, name, rest))
}

/// The name of a projection behind the keyword of these capitals, and whether IF EXISTS stands before it.
#[tactic(auto, unfolding(pj_grammar::specs::parsing::Statements::projection_there_at))]
fn projection_there<'a>(
    alloc: Global,
    capitals: &[u8],
    rest: Rest<'a>,
) -> Result<(bool, Text, Rest<'a>), Fault<'a>>
    ensures { Gives both_and result (projection_there_at capitals.now rest.entry) }
{
    let rest = keyword(capitals, rest)?;
    let rest = keyword(b"PROJECTION", rest)?;
    maybe_there(alloc, rest)
}

/// The projection that is added, with IF NOT EXISTS or without.
#[tactic(auto, unfolding(pj_grammar::specs::parsing::Statements::maybe_not_there_at))]
fn maybe_not_there<'a>(
    alloc: Global,
    most: usize,
    rest: Rest<'a>,
) -> Result<(TreeAction, Rest<'a>), Fault<'a>>
    ensures { Gives (λ x. x) result (maybe_not_there_at (value_at most) rest.entry) }
{
    let if_not_there = rest.begins_keyword(b"IF");
    if if_not_there {
        let rest = keyword(b"IF", rest)?;
        let rest = keyword(b"NOT", rest)?;
        let rest = keyword(b"EXISTS", rest)?;
        let (projection, rest) = proj(alloc, most, rest)?;
        let action = TreeAction::Add {
            if_not_there,
            projection,
        };
        return Ok((action, rest));
    }
    let (name, rest) = list_name_but_if(alloc, rest)?;
    let (projection, rest) = proj_behind(alloc, most, name, rest)?;
    let action = TreeAction::Add {
        if_not_there,
        projection,
    };
    Ok((action, rest))
}

/// ADD PROJECTION.
#[tactic(auto, unfolding(pj_grammar::specs::parsing::Statements::add_at))]
fn add<'a>(alloc: Global, most: usize, rest: Rest<'a>) -> Result<(TreeAction, Rest<'a>), Fault<'a>>
    ensures { Gives (λ x. x) result (add_at (value_at most) rest.entry) }
{
    let rest = keyword(b"ADD", rest)?;
    let rest = keyword(b"PROJECTION", rest)?;
    maybe_not_there(alloc, most, rest)
}

/// An assignment.
#[tactic(auto, unfolding(pj_grammar::specs::parsing::Statements::assign_at))]
fn assign<'a>(
    alloc: Global,
    most: usize,
    rest: Rest<'a>,
) -> Result<(TreeAssign, Rest<'a>), Fault<'a>>
    ensures { Gives (λ x. x) result (assign_at (value_at most) rest.entry) }
{
    let (column, rest) = name(alloc, rest)?;
    let rest = sign(Symbol::Eq, rest)?;
    let (value, rest) = value(alloc, most, rest)?;
    Ok((TreeAssign { column, value }, rest))
}

/// Assignments between commas.
#[tactic(auto, unfolding(pj_grammar::specs::parsing::Statements::assigns_at))]
fn assigns<'a>(
    alloc: Global,
    most: usize,
    rest: Rest<'a>,
) -> Result<(List<TreeAssign>, Rest<'a>), Fault<'a>>
    ensures { Gives (λ x. x) result (assigns_at (value_at most) rest.entry) }
{
    let (first, rest) = assign(alloc, most, rest)?;
    let mut rest = rest;
    let mut assigns = Vec::new(alloc);
    assigns.push(first)?;
    // There are no more assignments than tokens.
    'assigns: for _i in 0..rest.len() {
        if !rest.begins_symbol(Symbol::Comma) {
            break;
        }
        let behind = sign(Symbol::Comma, rest)?;
        let (one, behind) = assign(alloc, most, behind)?;
        assigns.push(one)?;
        rest = behind;
    }
    Ok((List::from_vec(assigns), rest))
}

/// UPDATE.
#[tactic(auto, unfolding(pj_grammar::specs::parsing::Statements::update_at))]
fn update<'a>(
    alloc: Global,
    most: usize,
    rest: Rest<'a>,
) -> Result<(TreeAction, Rest<'a>), Fault<'a>>
    ensures { Gives (λ x. x) result (update_at (value_at most) rest.entry) }
{
    let rest = keyword(b"UPDATE", rest)?;
    let (assigns, rest) = assigns(alloc, most, rest)?;
    let (filter, rest) = where_value(alloc, most, rest)?;
    Ok((TreeAction::Update { assigns, filter }, rest))
}

/// DELETE.
#[tactic(auto, unfolding(pj_grammar::specs::parsing::Statements::delete_rows_at))]
fn delete_rows<'a>(
    alloc: Global,
    most: usize,
    rest: Rest<'a>,
) -> Result<(TreeAction, Rest<'a>), Fault<'a>>
    ensures { Gives (λ x. x) result (delete_rows_at (value_at most) rest.entry) }
{
    let rest = keyword(b"DELETE", rest)?;
    let (filter, rest) = where_value(alloc, most, rest)?;
    Ok((TreeAction::Delete { filter }, rest))
}

/// MODIFY SETTING.
#[tactic(auto, unfolding(pj_grammar::specs::parsing::Statements::modify_at))]
fn modify<'a>(rest: Rest<'a>) -> Result<(TreeAction, Rest<'a>), Fault<'a>>
    ensures { Gives (λ x. x) result (modify_at rest.entry) }
{
    let rest = keyword(b"MODIFY", rest)?;
    let rest = keyword(b"SETTING", rest)?;
    let (mode, rest) = mode(rest)?;
    Ok((TreeAction::Mode(mode), rest))
}

/// What ALTER TABLE does.
#[tactic(auto, unfolding(pj_grammar::specs::parsing::Statements::action_at))]
pub(crate) fn action<'a>(
    alloc: Global,
    most: usize,
    rest: Rest<'a>,
) -> Result<(TreeAction, Rest<'a>), Fault<'a>>
    ensures { Gives (λ x. x) result (action_at (value_at most) rest.entry) }
{
    if rest.begins_keyword(b"ADD") {
        return add(alloc, most, rest);
    }
    if rest.begins_keyword(b"DROP") {
        let (if_there, name, rest) = projection_there(alloc, b"DROP", rest)?;
        return Ok((TreeAction::Drop { if_there, name }, rest));
    }
    if rest.begins_keyword(b"MATERIALIZE") {
        let (if_there, name, rest) = projection_there(alloc, b"MATERIALIZE", rest)?;
        return Ok((TreeAction::Materialize { if_there, name }, rest));
    }
    if rest.begins_keyword(b"CLEAR") {
        let (if_there, name, rest) = projection_there(alloc, b"CLEAR", rest)?;
        return Ok((TreeAction::Clear { if_there, name }, rest));
    }
    if rest.begins_keyword(b"DELETE") {
        return delete_rows(alloc, most, rest);
    }
    if rest.begins_keyword(b"UPDATE") {
        return update(alloc, most, rest);
    }
    modify(rest)
}
