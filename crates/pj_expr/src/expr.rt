//! Expressions: a value for each row.
ghost use Rattle.std.specs.Prelude.{◌≡◌, IfOk};

use pj_value::{NoMemory, Text};
use sqlite_items::Boxed;
use std::alloc::Global;

/// A value that is computed of a row. Arithmetic is modulo 2^64.
#[derive(Debug, Drop)]
pub enum Expr {
    /// The row's value in a column, counted from 0.
    Column(usize),
    Num(u64),
    Text(Text),
    Add(Boxed<Expr>, Boxed<Expr>),
    Mul(Boxed<Expr>, Boxed<Expr>),
    /// The quotient, rounded down. The divisor is at least 1.
    IntDiv(Boxed<Expr>, u64),
    /// The remainder. The divisor is at least 1.
    Mod(Boxed<Expr>, u64),
}

impl Expr {
    /// The same expression, in memory of its own.
    pub fn duplicate(&self, alloc: Global) -> Result<Expr, NoMemory>
        ensures { IfOk result (λ e. e ≡ self.now) }
    {
        match self {
            Expr::Column(at) => Ok(Expr::Column(*at)),
            Expr::Num(number) => Ok(Expr::Num(*number)),
            Expr::Text(text) => Ok(Expr::Text(text.duplicate(alloc)?)),
            Expr::Add(a, b) => {
                let a = Boxed::new(alloc, a.get().duplicate(alloc)?)?;
                let b = Boxed::new(alloc, b.get().duplicate(alloc)?)?;
                Ok(Expr::Add(a, b))
            }
            Expr::Mul(a, b) => {
                let a = Boxed::new(alloc, a.get().duplicate(alloc)?)?;
                let b = Boxed::new(alloc, b.get().duplicate(alloc)?)?;
                Ok(Expr::Mul(a, b))
            }
            Expr::IntDiv(a, divisor) => {
                let a = Boxed::new(alloc, a.get().duplicate(alloc)?)?;
                Ok(Expr::IntDiv(a, *divisor))
            }
            Expr::Mod(a, divisor) => {
                let a = Boxed::new(alloc, a.get().duplicate(alloc)?)?;
                Ok(Expr::Mod(a, *divisor))
            }
        }
    }
}
