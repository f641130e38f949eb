//! What a tree is once its names are columns: a value or a condition.
ghost use Rattle.std.specs.Prelude.{◌≡◌, IfOk, Some};
ghost use Rattle.std.specs.Option.{option_zip};
ghost use Rattle.pj_expr.specs.declared.expr.Expr.TheVariants as exprs;
ghost use Rattle.pj_expr.specs.declared.cond.Cond.TheVariants as conds;
ghost use Rattle.pj_bind.specs.Meanings.{column_number, column_named, of_value, of_values, of_conditions};
ghost use Rattle.pj_bind.specs.Meanings.{negated, compared, pair_meaning, meaning, value_in, condition_in};

use pj_expr::{ColumnDef, Cond, Expr, Op};
use pj_grammar::types::{Tree, TreeOp};
use pj_value::{NoMemory, Text};
use sqlite_items::Boxed;
use std::alloc::Global;

/// A tree whose names are columns.
#[derive(Drop)]
pub(crate) enum Meaning {
    Value(Expr),
    Condition(Cond),
}

/// What a tree is; none where a name is no column, or a value stands for a condition or the other way round.
/// It takes time linear in the tree, times the columns for each name.
pub(crate) fn meaning_of(
    alloc: Global,
    columns: &[ColumnDef],
    tree: &Tree,
) -> Result<Option<Meaning>, NoMemory>
    ensures { IfOk result (λ m. m ≡ meaning columns.now tree.now) }
{
    match tree {
        Tree::Num(number) => Ok(Some(Meaning::Value(Expr::Num(*number)))),
        Tree::Text(text) => literal(alloc, text),
        Tree::Name(name) => Ok(named(columns, name)),
        Tree::IntDiv(a, divisor) => quotient(alloc, meaning_of(alloc, columns, a.get())?, *divisor),
        Tree::Mod(a, divisor) => remainder(alloc, meaning_of(alloc, columns, a.get())?, *divisor),
        Tree::Pair(op, a, b) => {
            let a = meaning_of(alloc, columns, a.get())?;
            let b = meaning_of(alloc, columns, b.get())?;
            pair(alloc, *op, a, b)
        }
        Tree::Not(a) => opposite(alloc, meaning_of(alloc, columns, a.get())?),
    }
}

/// A text.
fn literal(alloc: Global, text: &Text) -> Result<Option<Meaning>, NoMemory>
    ensures { IfOk result (λ m. m ≡ Some (Meaning.Value (exprs.Text text.now))) }
{
    Ok(Some(Meaning::Value(Expr::Text(text.duplicate(alloc)?))))
}

/// The value that a tree is, if it is one.
pub(crate) fn value_in(meaning: Option<Meaning>) -> Option<Expr>
    ensures { result ≡ value_in meaning }
{
    match meaning {
        Some(Meaning::Value(value)) => Some(value),
        Some(Meaning::Condition(_)) => None,
        None => None,
    }
}

/// The condition that a tree is, if it is one.
pub(crate) fn condition_in(meaning: Option<Meaning>) -> Option<Cond>
    ensures { result ≡ condition_in meaning }
{
    match meaning {
        Some(Meaning::Value(_)) => None,
        Some(Meaning::Condition(condition)) => Some(condition),
        None => None,
    }
}

/// The number of the first column of this name.
pub(crate) fn column_number(columns: &[ColumnDef], name: &Text) -> Option<usize>
    ensures { result ≡ column_number columns.now name.now }
{
    columns
        .iter()
        .position(|column| column.name.as_slice() == name.as_slice())
}

/// The column of this name.
fn named(columns: &[ColumnDef], name: &Text) -> Option<Meaning>
    ensures { result ≡ column_named columns.now name.now }
{
    match column_number(columns, name) {
        Some(at) => Some(Meaning::Value(Expr::Column(at))),
        None => None,
    }
}

/// A quotient.
fn quotient(alloc: Global, a: Option<Meaning>, divisor: u64) -> Result<Option<Meaning>, NoMemory>
    ensures { IfOk result (λ m. m ≡ of_value (λ x. exprs.IntDiv x divisor) a) }
{
    let Some(a) = value_in(a) else {
        return Ok(None);
    };
    let a = Boxed::new(alloc, a)?;
    Ok(Some(Meaning::Value(Expr::IntDiv(a, divisor))))
}

/// A remainder.
fn remainder(alloc: Global, a: Option<Meaning>, divisor: u64) -> Result<Option<Meaning>, NoMemory>
    ensures { IfOk result (λ m. m ≡ of_value (λ x. exprs.Mod x divisor) a) }
{
    let Some(a) = value_in(a) else {
        return Ok(None);
    };
    let a = Boxed::new(alloc, a)?;
    Ok(Some(Meaning::Value(Expr::Mod(a, divisor))))
}

/// The opposite of a condition.
fn opposite(alloc: Global, a: Option<Meaning>) -> Result<Option<Meaning>, NoMemory>
    ensures { IfOk result (λ m. m ≡ negated a) }
{
    let Some(a) = condition_in(a) else {
        return Ok(None);
    };
    let a = Boxed::new(alloc, a)?;
    Ok(Some(Meaning::Condition(Cond::Not(a))))
}

/// What two operands make.
fn pair(
    alloc: Global,
    op: TreeOp,
    a: Option<Meaning>,
    b: Option<Meaning>,
) -> Result<Option<Meaning>, NoMemory>
    ensures { IfOk result (λ m. m ≡ pair_meaning op a b) }
{
    match op {
        TreeOp::Add => sum(alloc, a, b),
        TreeOp::Mul => product(alloc, a, b),
        TreeOp::Eq => Ok(comparison(Op::Eq, a, b)),
        TreeOp::Ne => Ok(comparison(Op::Ne, a, b)),
        TreeOp::Lt => Ok(comparison(Op::Lt, a, b)),
        TreeOp::Le => Ok(comparison(Op::Le, a, b)),
        TreeOp::Gt => Ok(comparison(Op::Gt, a, b)),
        TreeOp::Ge => Ok(comparison(Op::Ge, a, b)),
        TreeOp::And => both(alloc, a, b),
        TreeOp::Or => either(alloc, a, b),
    }
}

/// Two values, if both are.
fn values_in(a: Option<Meaning>, b: Option<Meaning>) -> Option<(Expr, Expr)>
    ensures { result ≡ option_zip (value_in a) (value_in b) }
{
    value_in(a).zip(value_in(b))
}

/// Two conditions, if both are.
fn conditions_in(a: Option<Meaning>, b: Option<Meaning>) -> Option<(Cond, Cond)>
    ensures { result ≡ option_zip (condition_in a) (condition_in b) }
{
    condition_in(a).zip(condition_in(b))
}

/// Two parts of a tree, each in a box.
fn boxed<T: Drop>(alloc: Global, a: T, b: T) -> Result<(Boxed<T>, Boxed<T>), NoMemory>
    ensures { IfOk result (λ both. both ≡ (a, b)) }
{
    let a = Boxed::new(alloc, a)?;
    let b = Boxed::new(alloc, b)?;
    Ok((a, b))
}

/// A sum of two values.
fn sum(alloc: Global, a: Option<Meaning>, b: Option<Meaning>) -> Result<Option<Meaning>, NoMemory>
    ensures { IfOk result (λ m. m ≡ of_values (λ x y. Meaning.Value (exprs.Add x y)) a b) }
{
    let Some((a, b)) = values_in(a, b) else {
        return Ok(None);
    };
    let (a, b) = boxed(alloc, a, b)?;
    Ok(Some(Meaning::Value(Expr::Add(a, b))))
}

/// A product of two values.
fn product(
    alloc: Global,
    a: Option<Meaning>,
    b: Option<Meaning>,
) -> Result<Option<Meaning>, NoMemory>
    ensures { IfOk result (λ m. m ≡ of_values (λ x y. Meaning.Value (exprs.Mul x y)) a b) }
{
    let Some((a, b)) = values_in(a, b) else {
        return Ok(None);
    };
    let (a, b) = boxed(alloc, a, b)?;
    Ok(Some(Meaning::Value(Expr::Mul(a, b))))
}

/// A comparison of two values.
fn comparison(op: Op, a: Option<Meaning>, b: Option<Meaning>) -> Option<Meaning>
    ensures { result ≡ compared op a b }
{
    let (a, b) = values_in(a, b)?;
    Some(Meaning::Condition(Cond::Compare(op, a, b)))
}

/// The condition that both hold.
fn both(alloc: Global, a: Option<Meaning>, b: Option<Meaning>) -> Result<Option<Meaning>, NoMemory>
    ensures { IfOk result (λ m. m ≡ of_conditions conds.And a b) }
{
    let Some((a, b)) = conditions_in(a, b) else {
        return Ok(None);
    };
    let (a, b) = boxed(alloc, a, b)?;
    Ok(Some(Meaning::Condition(Cond::And(a, b))))
}

/// The condition that a row satisfies where it satisfies one of them.
fn either(
    alloc: Global,
    a: Option<Meaning>,
    b: Option<Meaning>,
) -> Result<Option<Meaning>, NoMemory>
    ensures { IfOk result (λ m. m ≡ of_conditions conds.Or a b) }
{
    let Some((a, b)) = conditions_in(a, b) else {
        return Ok(None);
    };
    let (a, b) = boxed(alloc, a, b)?;
    Ok(Some(Meaning::Condition(Cond::Or(a, b))))
}
