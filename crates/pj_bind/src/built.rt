//! Which statements have a form that is built.
ghost use Rattle.std.specs.Prelude.{◌↔◌, IsTrue};
ghost use Rattle.pj_bind.specs.Built.{IsBuilt};

use pj_grammar::types::Statement;

/// Whether the statement has a form that is built.
pub(crate) fn is_built(statement: &Statement) -> bool
    ensures { IsTrue result ↔ IsBuilt statement.now }
{
    match statement {
        Statement::Create { projections, .. } => projections.as_slice().is_empty(),
        Statement::Insert { .. } => true,
        Statement::Select(select) => select.sets.as_slice().is_empty(),
        _ => false,
    }
}
