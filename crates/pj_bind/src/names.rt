//! Names in statements: which are unknown, and which repeat an earlier one.
ghost use Rattle.std.specs.Prelude.{◌≡◌, [], ◌∷◌, IfOk, MatchOption};
ghost use Rattle.std.specs.Option.{option_map};
ghost use Rattle.pj_bind.specs.Names.{names_in, is_among, first_unknown, NoneRepeats, IsFirstRepeat};
ghost use Rattle.pj_bind.specs.Filling.{column_names};

use pj_expr::ColumnDef;
use pj_grammar::types::Tree;
use pj_value::{NoMemory, Text};
use std::alloc::Global;
use std::collections::BTreeSet;

/// Whether a column has this name.
pub(crate) fn is_column(columns: &[ColumnDef], name: &Text) -> bool
    ensures { result ≡ is_among (column_names columns.now) name.now }
{
    columns
        .iter()
        .any(|column| column.name.as_slice() == name.as_slice())
}

/// The first name of a tree that is no column.
pub(crate) fn unknown_in_tree<'a>(columns: &[ColumnDef], tree: &'a Tree) -> Option<&'a Text>
    ensures { option_map (λ name. name.now) result
        ≡ first_unknown (column_names columns.now) (names_in tree.now) }
{
    match tree {
        Tree::Num(_) | Tree::Text(_) => None,
        Tree::Name(name) => unknown(columns, name),
        Tree::IntDiv(a, _) => unknown_in_tree(columns, a.get()),
        Tree::Mod(a, _) => unknown_in_tree(columns, a.get()),
        Tree::Pair(_, a, b) => {
            let first = unknown_in_tree(columns, a.get());
            first.or(unknown_in_tree(columns, b.get()))
        }
        Tree::Not(a) => unknown_in_tree(columns, a.get()),
    }
}

/// The name, if it is no column.
fn unknown<'a>(columns: &[ColumnDef], name: &'a Text) -> Option<&'a Text>
    ensures { option_map (λ n. n.now) result
        ≡ first_unknown (column_names columns.now) (name.now ∷ []) }
{
    if is_column(columns, name) {
        None
    } else {
        Some(name)
    }
}

/// The first of the names that is no column.
pub(crate) fn unknown_in_names<'a>(columns: &[ColumnDef], names: &'a [Text]) -> Option<&'a Text>
    ensures { option_map (λ name. name.now) result ≡ first_unknown (column_names columns.now) names.now }
{
    names.iter().find(|name| !is_column(columns, *name))
}

/// The names of the columns.
pub(crate) fn names_of(alloc: Global, columns: &[ColumnDef]) -> Result<Vec<Text>, NoMemory>
    ensures { IfOk result (λ names. names.items ≡ column_names columns.now) }
{
    let mut names = Vec::with_capacity(alloc, columns.len())?;
    'columns: for column in columns {
        names.push(column.name.duplicate(alloc)?)?;
    }
    Ok(names)
}

/// The first of the names that repeats an earlier one. It takes time n log n in the names, and memory for a
/// set of them that lends their bytes.
pub(crate) fn first_repeat<'a>(
    alloc: Global,
    names: &'a [Text],
) -> Result<Option<&'a Text>, NoMemory>
    ensures { IfOk result
        (λ found. MatchOption found (NoneRepeats names.now) (λ name. IsFirstRepeat names.now name.now)) }
{
    let mut seen: BTreeSet<&[u8]> = BTreeSet::new(alloc);
    'names: for name in names {
        if !seen.insert(name.as_slice())? {
            return Ok(Some(name));
        }
    }
    Ok(None)
}
