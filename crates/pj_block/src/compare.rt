//! Comparisons for a block of rows, and what is made of them.
ghost use Rattle.std.specs.Prelude.{◌≡◌, ◌&&◌, ◌||◌, not, IfOk, length, map, replicate};
ghost use Rattle.std.specs.List.{zip};
ghost use Rattle.std.specs.Simd.Lanes.{zip2};
ghost use Rattle.pj_block.specs.Blocks.{numbers_of, texts_of};
ghost use Rattle.pj_block.specs.Blocks.{number_meets, text_meets, numbers_met, texts_met};

use crate::numbers::Numbers;
use pj_expr::Op;
use pj_value::{NoMemory, Text};
use std::alloc::Global;

/// A text for each row, lent from the rows or from a literal.
#[derive(Clone, Copy)]
pub(crate) enum Texts<'a> {
    /// One for all rows.
    Same(&'a Text),
    /// Those of a column.
    Each(&'a [Text]),
}

/// As many copies of a text.
pub(crate) fn repeated(alloc: Global, text: &Text, len: usize) -> Result<Vec<Text>, NoMemory>
    ensures { IfOk result (λ ts. ts.items ≡ replicate len text.now) }
{
    let mut copies = Vec::with_capacity(alloc, len)?;
    for _at in 0..len {
        copies.push(text.duplicate(alloc)?)?;
    }
    Ok(copies)
}

/// Whether the numbers of two blocks meet the comparison, row by row.
pub(crate) fn compare_numbers(
    alloc: Global,
    op: Op,
    a: Numbers<'_>,
    b: Numbers<'_>,
    len: usize,
) -> Result<Vec<bool>, NoMemory>
    requires first { length (numbers_of len a) ≡ len }
    requires second { length (numbers_of len b) ≡ len }
    ensures { IfOk result (λ m. m.items ≡ numbers_met op (numbers_of len a.entry) (numbers_of len b.entry)) }
{
    match b {
        Numbers::Same(number) => compare_with_number(alloc, op, a, number, len),
        Numbers::Lent(lent) => compare_with_numbers(alloc, op, a, lent, len),
        Numbers::Own(own) => compare_with_numbers(alloc, op, a, own.as_slice(), len),
    }
}

/// Whether each number meets the comparison with one number.
fn compare_with_number(
    alloc: Global,
    op: Op,
    a: Numbers<'_>,
    number: u64,
    len: usize,
) -> Result<Vec<bool>, NoMemory>
    ensures { IfOk result (λ met. met.items ≡ map (λ n. number_meets op n number) (numbers_of len a.entry)) }
{
    match a {
        Numbers::Same(first) => filled(alloc, op.is_met_by(first.cmp(&number)), len),
        Numbers::Lent(lent) => met_by_each(alloc, op, lent, number),
        Numbers::Own(own) => met_by_each(alloc, op, own.as_slice(), number),
    }
}

/// Whether the numbers meet the comparison with those of a slice, row by row.
fn compare_with_numbers(
    alloc: Global,
    op: Op,
    a: Numbers<'_>,
    more: &[u64],
    len: usize,
) -> Result<Vec<bool>, NoMemory>
    requires first { length (numbers_of len a) ≡ len }
    requires second { length more.now ≡ len }
    ensures { IfOk result (λ met. met.items ≡ numbers_met op (numbers_of len a.entry) more.now) }
{
    match a {
        Numbers::Same(first) => met_by_one(alloc, op, first, more),
        Numbers::Lent(lent) => met_by_rows(alloc, op, lent, more),
        Numbers::Own(own) => met_by_rows(alloc, op, own.as_slice(), more),
    }
}

/// Whether each of the numbers meets the comparison with one number.
fn met_by_each(alloc: Global, op: Op, numbers: &[u64], number: u64) -> Result<Vec<bool>, NoMemory>
    ensures { IfOk result (λ met. met.items ≡ map (λ n. number_meets op n number) numbers.now) }
{
    let met = numbers
        .iter()
        .map(|n| op.is_met_by(n.cmp(&number)))
        .collect(alloc)?;
    Ok(met)
}

/// Whether one number meets the comparison with each of the numbers.
fn met_by_one(alloc: Global, op: Op, number: u64, numbers: &[u64]) -> Result<Vec<bool>, NoMemory>
    ensures { IfOk result (λ met. met.items ≡ map (λ n. number_meets op number n) numbers.now) }
{
    let met = numbers
        .iter()
        .map(|n| op.is_met_by(number.cmp(n)))
        .collect(alloc)?;
    Ok(met)
}

/// Whether the numbers of two slices meet the comparison, row by row.
fn met_by_rows(alloc: Global, op: Op, a: &[u64], b: &[u64]) -> Result<Vec<bool>, NoMemory>
    ensures { IfOk result (λ met. met.items ≡ map (λ p. number_meets op p.0 p.1) (zip a.now b.now)) }
{
    let met = a
        .iter()
        .zip(b)
        .map(|(m, n)| op.is_met_by(m.cmp(n)))
        .collect(alloc)?;
    Ok(met)
}

/// Whether the texts of two blocks meet the comparison, row by row.
pub(crate) fn compare_texts(
    alloc: Global,
    op: Op,
    a: Texts<'_>,
    b: Texts<'_>,
    len: usize,
) -> Result<Vec<bool>, NoMemory>
    requires first { length (texts_of len a) ≡ len }
    requires second { length (texts_of len b) ≡ len }
    ensures { IfOk result (λ m. m.items ≡ texts_met op (texts_of len a.entry) (texts_of len b.entry)) }
{
    match (a, b) {
        (Texts::Same(s), Texts::Same(t)) => {
            filled(alloc, op.is_met_by(s.as_slice().cmp(t.as_slice())), len)
        }
        (Texts::Same(s), Texts::Each(ts)) => text_met_by_one(alloc, op, s, ts),
        (Texts::Each(ss), Texts::Same(t)) => text_met_by_each(alloc, op, ss, t),
        (Texts::Each(ss), Texts::Each(ts)) => text_met_by_rows(alloc, op, ss, ts),
    }
}

/// Whether each of the texts meets the comparison with one text.
fn text_met_by_each(
    alloc: Global,
    op: Op,
    texts: &[Text],
    text: &Text,
) -> Result<Vec<bool>, NoMemory>
    ensures { IfOk result (λ met. met.items ≡ map (λ t. text_meets op t text.now) texts.now) }
{
    let met = texts
        .iter()
        .map(|t| op.is_met_by(t.as_slice().cmp(text.as_slice())))
        .collect(alloc)?;
    Ok(met)
}

/// Whether one text meets the comparison with each of the texts.
fn text_met_by_one(
    alloc: Global,
    op: Op,
    text: &Text,
    texts: &[Text],
) -> Result<Vec<bool>, NoMemory>
    ensures { IfOk result (λ met. met.items ≡ map (λ t. text_meets op text.now t) texts.now) }
{
    let met = texts
        .iter()
        .map(|t| op.is_met_by(text.as_slice().cmp(t.as_slice())))
        .collect(alloc)?;
    Ok(met)
}

/// Whether the texts of two slices meet the comparison, row by row.
fn text_met_by_rows(alloc: Global, op: Op, a: &[Text], b: &[Text]) -> Result<Vec<bool>, NoMemory>
    ensures { IfOk result (λ met. met.items ≡ map (λ p. text_meets op p.0 p.1) (zip a.now b.now)) }
{
    let met = a
        .iter()
        .zip(b)
        .map(|(s, t)| op.is_met_by(s.as_slice().cmp(t.as_slice())))
        .collect(alloc)?;
    Ok(met)
}

/// The same answer for each row.
pub(crate) fn filled(alloc: Global, holds: bool, len: usize) -> Result<Vec<bool>, NoMemory>
    ensures { IfOk result (λ held. held.items ≡ replicate len holds) }
{
    Ok(vec![in alloc; holds; len]?)
}

/// The rows that are true in both blocks. It takes over the memory of the first.
pub(crate) fn both(mut held: Vec<bool>, other: &[bool]) -> Vec<bool>
    requires { length held.items ≡ length other.now }
    ensures { result.items ≡ zip2 (λ a b. a && b) held.items other.now }
{
    and_each(&mut held, other);
    held
}

/// The rows that are true in one of the blocks, or in both. It takes over the memory of the first.
pub(crate) fn either(mut held: Vec<bool>, other: &[bool]) -> Vec<bool>
    requires { length held.items ≡ length other.now }
    ensures { result.items ≡ zip2 (λ a b. a || b) held.items other.now }
{
    or_each(&mut held, other);
    held
}

/// The rows that are false. It takes over the memory of the block.
pub(crate) fn opposite(mut held: Vec<bool>) -> Vec<bool>
    ensures { result.items ≡ map not held.items }
{
    not_each(&mut held);
    held
}

/// Keeps the rows that are true in the other block too.
fn and_each(held: &mut [bool], other: &[bool])
    requires { length held.old ≡ length other.now }
    ensures { held.new ≡ zip2 (λ a b. a && b) held.old other.now }
{
    for (at, holds) in held.iter_mut().enumerate() {
        *holds = *holds & other[at];
    }
}

/// Adds the rows that are true in the other block.
fn or_each(held: &mut [bool], other: &[bool])
    requires { length held.old ≡ length other.now }
    ensures { held.new ≡ zip2 (λ a b. a || b) held.old other.now }
{
    for (at, holds) in held.iter_mut().enumerate() {
        *holds = *holds | other[at];
    }
}

/// Turns each round.
fn not_each(held: &mut [bool])
    ensures { held.new ≡ map not held.old }
{
    for holds in held.iter_mut() {
        *holds = !*holds;
    }
}
