//! Reads settings of statements, sessions and tables.
ghost use Rattle.std.specs.Prelude.{◌≡◌};
ghost use Rattle.pj_phrase.specs.Given.{Gives};
ghost use Rattle.pj_grammar.specs.parsing.Settings.{flag_at, flag_of_at, set_at, set_list_at, own_sets_at};
ghost use Rattle.pj_grammar.specs.parsing.Settings.{mode_value_at, mode_at, granularity_at, table_set_at};

use crate::tokens::rest::{Fault, Rest};
use crate::tokens::single::{exactly, granule_len, keyword, number_exactly, sign, text_exactly};
use pj_grammar::types::{ModeWord, SetWord, TableWord};
use pj_lex::Symbol;
use pj_value::List;
use std::alloc::Global;

/// 0 or 1.
#[tactic(auto, unfolding(pj_grammar::specs::parsing::Settings::flag_at))]
fn flag<'a>(rest: Rest<'a>) -> Result<(bool, Rest<'a>), Fault<'a>>
    ensures { Gives (λ x. x) result (flag_at rest.entry) }
{
    if rest.begins_zero() {
        return Ok((false, number_exactly(0, rest)?));
    }
    Ok((true, number_exactly(1, rest)?))
}

/// The value of a setting, from the setting's name on.
fn flag_of<'a>(setting: &[u8], rest: Rest<'a>) -> Result<(bool, Rest<'a>), Fault<'a>>
    ensures { Gives (λ x. x) result (flag_of_at setting.now rest.entry) }
{
    let rest = exactly(setting, rest)?;
    let rest = sign(Symbol::Eq, rest)?;
    flag(rest)
}

/// A setting of a statement or a session.
#[tactic(auto, unfolding(pj_grammar::specs::parsing::Settings::set_at))]
fn set<'a>(rest: Rest<'a>) -> Result<(SetWord, Rest<'a>), Fault<'a>>
    ensures { Gives (λ x. x) result (set_at rest.entry) }
{
    if rest.begins_exactly(b"optimize_use_projections") {
        let (value, rest) = flag_of(b"optimize_use_projections", rest)?;
        return Ok((SetWord::UseProjections(value), rest));
    }
    if rest.begins_exactly(b"force_optimize_projection") {
        let (value, rest) = flag_of(b"force_optimize_projection", rest)?;
        return Ok((SetWord::Force(value), rest));
    }
    let (value, rest) = flag_of(b"mutations_sync", rest)?;
    Ok((SetWord::Sync(value), rest))
}

/// Settings between commas.
#[tactic(auto, unfolding(pj_grammar::specs::parsing::Settings::set_list_at))]
pub fn set_list<'a>(alloc: Global, rest: Rest<'a>) -> Result<(List<SetWord>, Rest<'a>), Fault<'a>>
    ensures { Gives (λ x. x) result (set_list_at rest.entry) }
{
    let (first, rest) = set(rest)?;
    let mut rest = rest;
    let mut sets = Vec::new(alloc);
    sets.push(first)?;
    // There are no more settings than tokens.
    'sets: for _i in 0..rest.len() {
        if !rest.begins_symbol(Symbol::Comma) {
            break;
        }
        let behind = sign(Symbol::Comma, rest)?;
        let (one, behind) = set(behind)?;
        sets.push(one)?;
        rest = behind;
    }
    Ok((List::from_vec(sets), rest))
}

/// The settings of a statement behind SETTINGS, or none.
#[tactic(auto, unfolding(pj_grammar::specs::parsing::Settings::own_sets_at))]
pub fn own_sets<'a>(alloc: Global, rest: Rest<'a>) -> Result<(List<SetWord>, Rest<'a>), Fault<'a>>
    ensures { Gives (λ x. x) result (own_sets_at rest.entry) }
{
    if !rest.begins_keyword(b"SETTINGS") {
        return Ok((List::from_vec(Vec::new(alloc)), rest));
    }
    let rest = keyword(b"SETTINGS", rest)?;
    set_list(alloc, rest)
}

/// The text of a mode.
#[tactic(auto, unfolding(pj_grammar::specs::parsing::Settings::mode_value_at))]
fn mode_value<'a>(rest: Rest<'a>) -> Result<(ModeWord, Rest<'a>), Fault<'a>>
    ensures { Gives (λ x. x) result (mode_value_at rest.entry) }
{
    if rest.begins_text_exactly(b"throw") {
        return Ok((ModeWord::Throw, text_exactly(b"throw", rest)?));
    }
    if rest.begins_text_exactly(b"drop") {
        return Ok((ModeWord::Drop, text_exactly(b"drop", rest)?));
    }
    Ok((ModeWord::Rebuild, text_exactly(b"rebuild", rest)?))
}

/// A table's mode.
#[tactic(auto, unfolding(pj_grammar::specs::parsing::Settings::mode_at))]
pub fn mode<'a>(rest: Rest<'a>) -> Result<(ModeWord, Rest<'a>), Fault<'a>>
    ensures { Gives (λ x. x) result (mode_at rest.entry) }
{
    let rest = exactly(b"lightweight_mutation_projection_mode", rest)?;
    let rest = sign(Symbol::Eq, rest)?;
    mode_value(rest)
}

/// How many rows a granule of the table has.
#[tactic(auto, unfolding(pj_grammar::specs::parsing::Settings::granularity_at))]
fn granularity<'a>(rest: Rest<'a>) -> Result<(u32, Rest<'a>), Fault<'a>>
    ensures { Gives (λ x. x) result (granularity_at rest.entry) }
{
    let rest = exactly(b"index_granularity", rest)?;
    let rest = sign(Symbol::Eq, rest)?;
    granule_len(rest)
}

/// A setting of a table.
#[tactic(auto, unfolding(pj_grammar::specs::parsing::Settings::table_set_at))]
pub fn table_set<'a>(rest: Rest<'a>) -> Result<(TableWord, Rest<'a>), Fault<'a>>
    ensures { Gives (λ x. x) result (table_set_at rest.entry) }
{
    if rest.begins_exactly(b"index_granularity") {
        let (n, rest) = granularity(rest)?;
        return Ok((TableWord::Granularity(n), rest));
    }
    let (mode, rest) = mode(rest)?;
    Ok((TableWord::Mode(mode), rest))
}
