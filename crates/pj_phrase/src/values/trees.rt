//! Reads values and conditions. What stands in parentheses is read by `value`, one level less deep.
ghost use Rattle.std.specs.Prelude.{◌≡◌, IfOk};
ghost use Rattle.pj_grammar.specs.declared.types.Tree.TheVariants as trees;
ghost use Rattle.pj_grammar.specs.parsing.Parser.{begins};
ghost use Rattle.pj_phrase.specs.Given.{Gives};
ghost use Rattle.pj_grammar.specs.parsing.Values.{quotient_at, simple_atom_at, atom_at, begins_factor};
ghost use Rattle.pj_grammar.specs.parsing.Values.{factor_behind_at, product_at, arith_at, begins_comparison};
ghost use Rattle.pj_grammar.specs.parsing.Values.{comparison_at, test_at, neg_at, conj_at, value_with_at};
ghost use Rattle.pj_grammar.specs.parsing.Values.{value_at};

use crate::tokens::rest::{Fault, Rest};
use crate::tokens::single::{exactly, keyword, name, number, positive, sign, text};
use crate::values::nots::{negated, nots};
use pj_grammar::types::{Tree, TreeOp};
use pj_lex::Symbol;
use pj_value::NoMemory;
use sqlite_items::Boxed;
use std::alloc::Global;

/// The operator between two operands.
fn pair(alloc: Global, op: TreeOp, left: Tree, right: Tree) -> Result<Tree, NoMemory>
    ensures { IfOk result (λ tree. tree ≡ trees.Pair op left right) }
{
    let left = Boxed::new(alloc, left)?;
    let right = Boxed::new(alloc, right)?;
    Ok(Tree::Pair(op, left, right))
}

/// Whether a factor follows.
#[tactic(auto, unfolding(pj_grammar::specs::parsing::Parser::begins))]
fn begins_factor(rest: &Rest<'_>) -> bool
    ensures { result ≡ begins begins_factor rest.now }
{
    rest.begins_symbol(Symbol::Star) || rest.begins_symbol(Symbol::Percent)
}

/// Whether a comparison follows.
#[tactic(auto, unfolding(pj_grammar::specs::parsing::Parser::begins))]
fn begins_comparison(rest: &Rest<'_>) -> bool
    ensures { result ≡ begins begins_comparison rest.now }
{
    rest.begins_symbol(Symbol::Eq)
        || rest.begins_symbol(Symbol::Ne)
        || rest.begins_symbol(Symbol::Lt)
        || rest.begins_symbol(Symbol::Le)
        || rest.begins_symbol(Symbol::Gt)
        || rest.begins_symbol(Symbol::Ge)
}

/// `=`, `!=`, `<`, `<=`, `>` or `>=`.
#[tactic(auto, unfolding(pj_grammar::specs::parsing::Values::comparison_at))]
fn comparison<'a>(rest: Rest<'a>) -> Result<(TreeOp, Rest<'a>), Fault<'a>>
    ensures { Gives (λ x. x) result (comparison_at rest.entry) }
{
    if rest.begins_symbol(Symbol::Eq) {
        return Ok((TreeOp::Eq, sign(Symbol::Eq, rest)?));
    }
    if rest.begins_symbol(Symbol::Ne) {
        return Ok((TreeOp::Ne, sign(Symbol::Ne, rest)?));
    }
    if rest.begins_symbol(Symbol::Lt) {
        return Ok((TreeOp::Lt, sign(Symbol::Lt, rest)?));
    }
    if rest.begins_symbol(Symbol::Le) {
        return Ok((TreeOp::Le, sign(Symbol::Le, rest)?));
    }
    if rest.begins_symbol(Symbol::Gt) {
        return Ok((TreeOp::Gt, sign(Symbol::Gt, rest)?));
    }
    Ok((TreeOp::Ge, sign(Symbol::Ge, rest)?))
}

/// A quotient, from its word on.
#[cycle(value)]
#[tactic(auto, unfolding(pj_grammar::specs::parsing::Values::quotient_at))]
fn quotient<'a>(alloc: Global, most: usize, rest: Rest<'a>) -> Result<(Tree, Rest<'a>), Fault<'a>>
    ensures { Gives (λ x. x) result (quotient_at (value_at most) rest.entry) }
{
    let rest = exactly(b"intDiv", rest)?;
    let rest = sign(Symbol::Left, rest)?;
    let (dividend, rest) = value(alloc, most, rest)?;
    let rest = sign(Symbol::Comma, rest)?;
    let (divisor, rest) = positive(rest)?;
    let rest = sign(Symbol::Right, rest)?;
    let dividend = Boxed::new(alloc, dividend)?;
    Ok((Tree::IntDiv(dividend, divisor), rest))
}

/// A number, a text, a value in parentheses or a name.
#[cycle(value)]
#[tactic(auto, unfolding(pj_grammar::specs::parsing::Values::simple_atom_at))]
fn simple_atom<'a>(
    alloc: Global,
    most: usize,
    rest: Rest<'a>,
) -> Result<(Tree, Rest<'a>), Fault<'a>>
    ensures { Gives (λ x. x) result (simple_atom_at (value_at most) rest.entry) }
{
    if rest.begins_number() {
        let (n, rest) = number(rest)?;
        return Ok((Tree::Num(n), rest));
    }
    if rest.begins_text() {
        let (bytes, rest) = text(alloc, rest)?;
        return Ok((Tree::Text(bytes), rest));
    }
    if rest.begins_symbol(Symbol::Left) {
        let rest = sign(Symbol::Left, rest)?;
        let (tree, rest) = value(alloc, most, rest)?;
        return Ok((tree, sign(Symbol::Right, rest)?));
    }
    let (bytes, rest) = name(alloc, rest)?;
    Ok((Tree::Name(bytes), rest))
}

/// An atom.
#[cycle(value)]
#[tactic(auto, unfolding(pj_grammar::specs::parsing::Values::atom_at))]
fn atom<'a>(alloc: Global, most: usize, rest: Rest<'a>) -> Result<(Tree, Rest<'a>), Fault<'a>>
    ensures { Gives (λ x. x) result (atom_at (value_at most) rest.entry) }
{
    if rest.begins_quotient() {
        quotient(alloc, most, rest)
    } else {
        simple_atom(alloc, most, rest)
    }
}

/// What is left and a factor, `*` with an atom or `%` with a divisor.
#[cycle(value)]
#[tactic(auto, unfolding(pj_grammar::specs::parsing::Values::factor_at))]
fn factor<'a>(
    alloc: Global,
    most: usize,
    left: Tree,
    rest: Rest<'a>,
) -> Result<(Tree, Rest<'a>), Fault<'a>>
    ensures { Gives (λ x. x) result (factor_behind_at (value_at most) left rest.entry) }
{
    if rest.begins_symbol(Symbol::Star) {
        let rest = sign(Symbol::Star, rest)?;
        let (right, rest) = atom(alloc, most, rest)?;
        return Ok((pair(alloc, TreeOp::Mul, left, right)?, rest));
    }
    let rest = sign(Symbol::Percent, rest)?;
    let (divisor, rest) = positive(rest)?;
    let left = Boxed::new(alloc, left)?;
    Ok((Tree::Mod(left, divisor), rest))
}

/// An atom and its factors.
#[cycle(value)]
#[tactic(auto, unfolding(pj_grammar::specs::parsing::Values::product_at))]
fn product<'a>(alloc: Global, most: usize, rest: Rest<'a>) -> Result<(Tree, Rest<'a>), Fault<'a>>
    ensures { Gives (λ x. x) result (product_at (value_at most) rest.entry) }
{
    let (mut tree, mut rest) = atom(alloc, most, rest)?;
    // There are no more factors than tokens.
    'factors: for _i in 0..rest.len() {
        if !begins_factor(&rest) {
            break;
        }
        (tree, rest) = factor(alloc, most, tree, rest)?;
    }
    Ok((tree, rest))
}

/// A sum of products.
#[cycle(value)]
#[tactic(auto, unfolding(pj_grammar::specs::parsing::Values::arith_at))]
fn arith<'a>(alloc: Global, most: usize, rest: Rest<'a>) -> Result<(Tree, Rest<'a>), Fault<'a>>
    ensures { Gives (λ x. x) result (arith_at (value_at most) rest.entry) }
{
    let (mut tree, mut rest) = product(alloc, most, rest)?;
    // There are no more terms than tokens.
    'terms: for _i in 0..rest.len() {
        if !rest.begins_symbol(Symbol::Plus) {
            break;
        }
        let behind = sign(Symbol::Plus, rest)?;
        let (right, behind) = product(alloc, most, behind)?;
        tree = pair(alloc, TreeOp::Add, tree, right)?;
        rest = behind;
    }
    Ok((tree, rest))
}

/// A sum, or a comparison of two.
#[cycle(value)]
#[tactic(auto, unfolding(pj_grammar::specs::parsing::Values::test_at))]
fn test<'a>(alloc: Global, most: usize, rest: Rest<'a>) -> Result<(Tree, Rest<'a>), Fault<'a>>
    ensures { Gives (λ x. x) result (test_at (value_at most) rest.entry) }
{
    let (left, rest) = arith(alloc, most, rest)?;
    if !begins_comparison(&rest) {
        return Ok((left, rest));
    }
    let (op, rest) = comparison(rest)?;
    let (right, rest) = arith(alloc, most, rest)?;
    Ok((pair(alloc, op, left, right)?, rest))
}

/// NOTs and a test.
#[cycle(value)]
#[tactic(auto, unfolding(pj_grammar::specs::parsing::Values::neg_at))]
fn neg<'a>(alloc: Global, most: usize, rest: Rest<'a>) -> Result<(Tree, Rest<'a>), Fault<'a>>
    ensures { Gives (λ x. x) result (neg_at (value_at most) rest.entry) }
{
    let (nots, rest) = nots(rest)?;
    let (tree, rest) = test(alloc, most, rest)?;
    Ok((negated(alloc, nots, tree)?, rest))
}

/// Conditions between ANDs.
#[cycle(value)]
#[tactic(auto, unfolding(pj_grammar::specs::parsing::Values::conj_at))]
fn conj<'a>(alloc: Global, most: usize, rest: Rest<'a>) -> Result<(Tree, Rest<'a>), Fault<'a>>
    ensures { Gives (λ x. x) result (conj_at (value_at most) rest.entry) }
{
    let (mut tree, mut rest) = neg(alloc, most, rest)?;
    // There are no more ANDs than tokens.
    'ands: for _i in 0..rest.len() {
        if !rest.begins_keyword(b"AND") {
            break;
        }
        let behind = keyword(b"AND", rest)?;
        let (right, behind) = neg(alloc, most, behind)?;
        tree = pair(alloc, TreeOp::And, tree, right)?;
        rest = behind;
    }
    Ok((tree, rest))
}

/// Conditions between ORs.
#[cycle(value)]
#[tactic(auto, unfolding(pj_grammar::specs::parsing::Values::value_with_at))]
fn value_with<'a>(alloc: Global, most: usize, rest: Rest<'a>) -> Result<(Tree, Rest<'a>), Fault<'a>>
    ensures { Gives (λ x. x) result (value_with_at (value_at most) rest.entry) }
{
    let (mut tree, mut rest) = conj(alloc, most, rest)?;
    // There are no more ORs than tokens.
    'ors: for _i in 0..rest.len() {
        if !rest.begins_keyword(b"OR") {
            break;
        }
        let behind = keyword(b"OR", rest)?;
        let (right, behind) = conj(alloc, most, behind)?;
        tree = pair(alloc, TreeOp::Or, tree, right)?;
        rest = behind;
    }
    Ok((tree, rest))
}

/// A value, in which parentheses nest less than `most` deep.
#[cycle(value)]
#[tactic(auto, unfolding(pj_grammar::specs::parsing::Values::value_at))]
pub fn value<'a>(alloc: Global, most: usize, rest: Rest<'a>) -> Result<(Tree, Rest<'a>), Fault<'a>>
    ensures { Gives (λ x. x) result (value_at most rest.entry) }
{
    if most == 0 {
        return Err(Fault::Stuck(rest));
    }
    value_with(alloc, most - 1, rest)
}
