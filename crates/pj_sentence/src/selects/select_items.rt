//! Reads calls of aggregate functions, and the items of a SELECT.
ghost use Rattle.std.specs.Prelude.{◌≡◌};
ghost use Rattle.pj_phrase.specs.Given.{Gives};
ghost use Rattle.pj_grammar.specs.parsing.Values.{value_at};
ghost use Rattle.pj_grammar.specs.parsing.Selects.{aggregate_at, count_call_at, aggregate_call_at, call_at};
ghost use Rattle.pj_grammar.specs.parsing.Selects.{call_or_value_at, item_at, items_at, item_list_at};

use pj_grammar::types::{Listed, TreeItem};
use pj_lex::Symbol;
use pj_phrase::tokens::rest::{Fault, Rest};
use pj_phrase::tokens::single::{exactly, keyword, name, pass_over, sign};
use pj_phrase::values::trees::value;
use pj_value::{AggKind, List};
use std::alloc::Global;

/// The word of an aggregate function with an argument.
#[tactic(auto, unfolding(pj_grammar::specs::parsing::Selects::aggregate_at))]
fn aggregate<'a>(rest: Rest<'a>) -> Result<(AggKind, Rest<'a>), Fault<'a>>
    ensures { Gives (λ x. x) result (aggregate_at rest.entry) }
{
    if rest.begins_keyword(b"SUM") {
        return Ok((AggKind::Sum, keyword(b"SUM", rest)?));
    }
    if rest.begins_keyword(b"MIN") {
        return Ok((AggKind::Min, keyword(b"MIN", rest)?));
    }
    if rest.begins_keyword(b"MAX") {
        return Ok((AggKind::Max, keyword(b"MAX", rest)?));
    }
    Ok((AggKind::UniqExact, exactly(b"uniqExact", rest)?))
}

/// `count()` or `count(*)`.
#[tactic(auto, unfolding(pj_grammar::specs::parsing::Selects::count_call_at))]
fn count_call<'a>(rest: Rest<'a>) -> Result<(TreeItem, Rest<'a>), Fault<'a>>
    ensures { Gives (λ x. x) result (count_call_at rest.entry) }
{
    let rest = keyword(b"COUNT", rest)?;
    let rest = sign(Symbol::Left, rest)?;
    let rest = pass_over(Symbol::Star, rest);
    let rest = sign(Symbol::Right, rest)?;
    Ok((TreeItem::Call(AggKind::Count, None), rest))
}

/// A call of a function with an argument.
#[tactic(auto, unfolding(pj_grammar::specs::parsing::Selects::aggregate_call_at))]
fn aggregate_call<'a>(
    alloc: Global,
    most: usize,
    rest: Rest<'a>,
) -> Result<(TreeItem, Rest<'a>), Fault<'a>>
    ensures { Gives (λ x. x) result (aggregate_call_at (value_at most) rest.entry) }
{
    let (kind, rest) = aggregate(rest)?;
    let rest = sign(Symbol::Left, rest)?;
    let (argument, rest) = value(alloc, most, rest)?;
    let rest = sign(Symbol::Right, rest)?;
    Ok((TreeItem::Call(kind, Some(argument)), rest))
}

/// A call.
#[tactic(auto, unfolding(pj_grammar::specs::parsing::Selects::call_at))]
fn call<'a>(alloc: Global, most: usize, rest: Rest<'a>) -> Result<(TreeItem, Rest<'a>), Fault<'a>>
    ensures { Gives (λ x. x) result (call_at (value_at most) rest.entry) }
{
    if rest.begins_keyword(b"COUNT") {
        count_call(rest)
    } else {
        aggregate_call(alloc, most, rest)
    }
}

/// A call or a value.
#[tactic(auto, unfolding(pj_grammar::specs::parsing::Selects::call_or_value_at))]
pub(crate) fn call_or_value<'a>(
    alloc: Global,
    most: usize,
    rest: Rest<'a>,
) -> Result<(TreeItem, Rest<'a>), Fault<'a>>
    ensures { Gives (λ x. x) result (call_or_value_at (value_at most) rest.entry) }
{
    if rest.begins_call() {
        return call(alloc, most, rest);
    }
    let (tree, rest) = value(alloc, most, rest)?;
    Ok((TreeItem::Value(tree), rest))
}

/// An item, with its name where AS gives it one.
#[tactic(auto, unfolding(pj_grammar::specs::parsing::Selects::item_at))]
fn item<'a>(alloc: Global, most: usize, rest: Rest<'a>) -> Result<(Listed, Rest<'a>), Fault<'a>>
    ensures { Gives (λ x. x) result (item_at (value_at most) rest.entry) }
{
    let (item, rest) = call_or_value(alloc, most, rest)?;
    if !rest.begins_keyword(b"AS") {
        return Ok((Listed { item, alias: None }, rest));
    }
    let rest = keyword(b"AS", rest)?;
    let (alias, rest) = name(alloc, rest)?;
    let alias = Some(alias);
    Ok((Listed { item, alias }, rest))
}

/// Items between commas.
#[tactic(auto, unfolding(pj_grammar::specs::parsing::Selects::items_at))]
fn items<'a>(
    alloc: Global,
    most: usize,
    rest: Rest<'a>,
) -> Result<(List<Listed>, Rest<'a>), Fault<'a>>
    ensures { Gives (λ x. x) result (items_at (value_at most) rest.entry) }
{
    let (first, rest) = item(alloc, most, rest)?;
    let mut rest = rest;
    let mut items = Vec::new(alloc);
    items.push(first)?;
    // There are no more items than tokens.
    'items: for _i in 0..rest.len() {
        if !rest.begins_symbol(Symbol::Comma) {
            break;
        }
        let behind = sign(Symbol::Comma, rest)?;
        let (one, behind) = item(alloc, most, behind)?;
        items.push(one)?;
        rest = behind;
    }
    Ok((List::from_vec(items), rest))
}

/// Items, or none for `*`.
#[tactic(auto, unfolding(pj_grammar::specs::parsing::Selects::item_list_at))]
pub(crate) fn item_list<'a>(
    alloc: Global,
    most: usize,
    rest: Rest<'a>,
) -> Result<(Option<List<Listed>>, Rest<'a>), Fault<'a>>
    ensures { Gives (λ x. x) result (item_list_at (value_at most) rest.entry) }
{
    if rest.begins_symbol(Symbol::Star) {
        return Ok((None, sign(Symbol::Star, rest)?));
    }
    let (list, rest) = items(alloc, most, rest)?;
    Ok((Some(list), rest))
}
