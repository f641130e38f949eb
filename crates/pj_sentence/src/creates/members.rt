//! Reads what CREATE TABLE lists in parentheses: columns and projections.
ghost use Rattle.std.specs.Prelude.{◌≡◌, ◌++◌, [], ◌∷◌, OnOk};
ghost use Rattle.pj_grammar.specs.grammar.Tables.{columns_in, projections_in};
ghost use Rattle.pj_phrase.specs.Given.{Gives, both_and};
ghost use Rattle.pj_sentence.specs.Members.{member_of};
ghost use Rattle.pj_grammar.specs.parsing.Values.{value_at};
ghost use Rattle.pj_grammar.specs.parsing.Tables.{kind_at, column_at, member_at, more_members_at};
ghost use Rattle.pj_grammar.specs.parsing.Tables.{parted_members_at};

use crate::creates::projections::proj;
use pj_grammar::types::{TreeColumn, TreeProj};
use pj_lex::Symbol;
use pj_phrase::tokens::rest::{Fault, Rest};
use pj_phrase::tokens::single::{exactly, keyword, name, sign};
use pj_value::{Kind, List, NoMemory};
use std::alloc::Global;

/// What CREATE TABLE lists.
#[derive(Drop)]
enum ReadMember {
    Column(TreeColumn),
    Projection(TreeProj),
}

/// A column's kind.
#[tactic(auto, unfolding(pj_grammar::specs::parsing::Tables::kind_at))]
fn kind<'a>(rest: Rest<'a>) -> Result<(Kind, Rest<'a>), Fault<'a>>
    ensures { Gives (λ x. x) result (kind_at rest.entry) }
{
    if rest.begins_exactly(b"UInt64") {
        return Ok((Kind::Num, exactly(b"UInt64", rest)?));
    }
    Ok((Kind::Text, exactly(b"String", rest)?))
}

/// A column.
#[tactic(auto, unfolding(pj_grammar::specs::parsing::Tables::column_at))]
fn column<'a>(alloc: Global, rest: Rest<'a>) -> Result<(TreeColumn, Rest<'a>), Fault<'a>>
    ensures { Gives (λ x. x) result (column_at rest.entry) }
{
    let (name, rest) = name(alloc, rest)?;
    let (kind, rest) = kind(rest)?;
    Ok((TreeColumn { name, kind }, rest))
}

/// A column, or a projection behind PROJECTION.
#[tactic(auto, unfolding(pj_grammar::specs::parsing::Tables::member_at))]
fn member<'a>(
    alloc: Global,
    most: usize,
    rest: Rest<'a>,
) -> Result<(ReadMember, Rest<'a>), Fault<'a>>
    ensures { Gives (λ x. (member_of x.0, x.1)) result (member_at (value_at most) rest.entry) }
{
    if rest.begins_keyword(b"PROJECTION") {
        let rest = keyword(b"PROJECTION", rest)?;
        let (projection, rest) = proj(alloc, most, rest)?;
        return Ok((ReadMember::Projection(projection), rest));
    }
    let (column, rest) = column(alloc, rest)?;
    Ok((ReadMember::Column(column), rest))
}

/// Puts a column behind the columns, or a projection behind the projections.
fn put(
    member: ReadMember,
    columns: &mut Vec<TreeColumn>,
    projections: &mut Vec<TreeProj>,
) -> Result<(), NoMemory>
    ensures columns { OnOk result
        (columns.new.items ≡ columns.old.items ++ columns_in (member_of member ∷ [])) }
    ensures projections { OnOk result
        (projections.new.items ≡ projections.old.items ++ projections_in (member_of member ∷ [])) }
{
    match member {
        ReadMember::Column(column) => Ok(columns.push(column)?),
        ReadMember::Projection(projection) => Ok(projections.push(projection)?),
    }
}

/// The columns behind the first one, and the projections.
fn more_members<'a>(
    alloc: Global,
    most: usize,
    first: TreeColumn,
    rest: Rest<'a>,
) -> Result<(List<TreeColumn>, List<TreeProj>, Rest<'a>), Fault<'a>>
    ensures { Gives both_and result (more_members_at (value_at most) first rest.entry) }
{
    let mut rest = rest;
    let mut columns = Vec::new(alloc);
    let mut projections = Vec::new(alloc);
    columns.push(first)?;
    // There are no more members than tokens.
    'members: for _i in 0..rest.len() {
        if !rest.begins_symbol(Symbol::Comma) {
            break;
        }
        let behind = sign(Symbol::Comma, rest)?;
        let (one, behind) = member(alloc, most, behind)?;
        put(one, &mut columns, &mut projections)?;
        rest = behind;
    }
    Ok((List::from_vec(columns), List::from_vec(projections), rest))
}

/// The columns and projections of a table, in parentheses.
#[tactic(auto, unfolding(pj_grammar::specs::parsing::Tables::members_at))]
pub(crate) fn members<'a>(
    alloc: Global,
    most: usize,
    rest: Rest<'a>,
) -> Result<(List<TreeColumn>, List<TreeProj>, Rest<'a>), Fault<'a>>
    ensures { Gives both_and result (parted_members_at (value_at most) rest.entry) }
{
    let rest = sign(Symbol::Left, rest)?;
    let (first, rest) = column(alloc, rest)?;
    let (columns, projections, rest) = more_members(alloc, most, first, rest)?;
    let rest = sign(Symbol::Right, rest)?;
    Ok((columns, projections, rest))
}
