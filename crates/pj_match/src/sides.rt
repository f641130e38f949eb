//! Which bound of a range a comparison serves, and which of several literals stands in it.
ghost use Rattle.std.specs.Prelude.{◌≡◌};
ghost use Rattle.std.specs.Option.{option_map};
ghost use Rattle.pj_value.specs.Values.{value_of};
ghost use Rattle.pj_match.specs.Sides.{serves, choice, either};

use pj_expr::Op;
use pj_value::{Cell, cell_cmp};

/// A bound of a range.
#[derive(Clone, Copy, Debug)]
pub enum Side {
    /// Both at once: the component has one value.
    Both,
    Low,
    High,
}

impl Side {
    /// Whether the literal of such a comparison may stand there, with the component on the left.
    pub fn serves(self, op: Op) -> bool
        ensures { result ≡ serves self op }
    {
        match (self, op) {
            (Side::Both, Op::Eq) => true,
            (Side::Low, Op::Gt) => true,
            (Side::Low, Op::Ge) => true,
            (Side::High, Op::Lt) => true,
            (Side::High, Op::Le) => true,
            _ => false,
        }
    }

    /// The one of two literals that stands there: the first of equations, or the one that leaves the narrower
    /// range.
    fn choose<'a>(self, a: Cell<'a>, b: Cell<'a>) -> Cell<'a>
        ensures { value_of result ≡ choice self (value_of a.entry) (value_of b.entry) }
    {
        let replaced = match self {
            Side::Both => false,
            Side::Low => cell_cmp(a, b).is_lt(),
            Side::High => cell_cmp(b, a).is_lt(),
        };
        if replaced { b } else { a }
    }

    /// The one that stands there of two, of which each may be none.
    pub fn either<'a>(self, a: Option<Cell<'a>>, b: Option<Cell<'a>>) -> Option<Cell<'a>>
        ensures { option_map value_of result
            ≡ either self (option_map value_of a.entry) (option_map value_of b.entry) }
    {
        match (a, b) {
            (None, b) => b,
            (Some(a), None) => Some(a),
            (Some(a), Some(b)) => Some(self.choose(a, b)),
        }
    }
}
