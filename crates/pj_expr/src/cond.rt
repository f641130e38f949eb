//! Conditions: which rows are kept.
ghost use Rattle.std.specs.Prelude.{◌≡◌, IfOk};
ghost use Rattle.pj_expr.specs.Eval.{meets};

use crate::expr::Expr;
use pj_value::NoMemory;
use sqlite_items::Boxed;
use std::alloc::Global;
use std::cmp::Ordering;

/// A comparison of two values of one kind.
#[derive(Clone, Copy, Debug, PartialEq, Eq)]
pub enum Op {
    Eq,
    Ne,
    Lt,
    Le,
    Gt,
    Ge,
}

/// A condition on a row.
#[derive(Debug, Drop)]
pub enum Cond {
    /// Each row satisfies it.
    All,
    Compare(Op, Expr, Expr),
    And(Boxed<Cond>, Boxed<Cond>),
    Or(Boxed<Cond>, Boxed<Cond>),
    Not(Boxed<Cond>),
}

impl Op {
    /// Whether two values that stand to each other so meet the comparison.
    pub fn is_met_by(self, order: Ordering) -> bool
        ensures { result ≡ meets self order }
    {
        match self {
            Op::Eq => order.is_eq(),
            Op::Ne => order.is_ne(),
            Op::Lt => order.is_lt(),
            Op::Le => order.is_le(),
            Op::Gt => order.is_gt(),
            Op::Ge => order.is_ge(),
        }
    }
}

impl Cond {
    /// The same condition, in memory of its own.
    pub fn duplicate(&self, alloc: Global) -> Result<Cond, NoMemory>
        ensures { IfOk result (λ c. c ≡ self.now) }
    {
        match self {
            Cond::All => Ok(Cond::All),
            Cond::Compare(op, a, b) => {
                let a = a.duplicate(alloc)?;
                let b = b.duplicate(alloc)?;
                Ok(Cond::Compare(*op, a, b))
            }
            Cond::And(a, b) => {
                let a = Boxed::new(alloc, a.get().duplicate(alloc)?)?;
                let b = Boxed::new(alloc, b.get().duplicate(alloc)?)?;
                Ok(Cond::And(a, b))
            }
            Cond::Or(a, b) => {
                let a = Boxed::new(alloc, a.get().duplicate(alloc)?)?;
                let b = Boxed::new(alloc, b.get().duplicate(alloc)?)?;
                Ok(Cond::Or(a, b))
            }
            Cond::Not(a) => {
                let a = Boxed::new(alloc, a.get().duplicate(alloc)?)?;
                Ok(Cond::Not(a))
            }
        }
    }
}
