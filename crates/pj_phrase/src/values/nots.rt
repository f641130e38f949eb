//! Reads NOTs, and puts them before a condition.
ghost use Rattle.std.specs.Prelude.{◌≡◌, replicate, IfOk};
ghost use Rattle.pj_grammar.specs.grammar.Values.{negated};
ghost use Rattle.pj_phrase.specs.Given.{Gives};
ghost use Rattle.pj_grammar.specs.parsing.Values.{nots_at};

use crate::tokens::rest::{Fault, Rest};
use crate::tokens::single::keyword;
use pj_grammar::types::Tree;
use pj_value::NoMemory;
use sqlite_items::Boxed;
use std::alloc::Global;

/// How many NOTs stand next.
pub fn nots<'a>(rest: Rest<'a>) -> Result<(usize, Rest<'a>), Fault<'a>>
    ensures { Gives (λ x. (replicate x.0 tt, x.1)) result (nots_at rest.entry) }
{
    let mut count = 0;
    let mut rest = rest;
    // There are no more NOTs than tokens.
    'nots: for _i in 0..rest.len() {
        if !rest.begins_keyword(b"NOT") {
            break;
        }
        rest = keyword(b"NOT", rest)?;
        count += 1;
    }
    Ok((count, rest))
}

/// The condition with so many NOTs before it.
pub fn negated(alloc: Global, count: usize, tree: Tree) -> Result<Tree, NoMemory>
    ensures { IfOk result (λ t. t ≡ negated (replicate count tt) tree) }
{
    let mut tree = tree;
    'nots: for _i in 0..count {
        let inner = Boxed::new(alloc, tree)?;
        tree = Tree::Not(inner);
    }
    Ok(tree)
}
