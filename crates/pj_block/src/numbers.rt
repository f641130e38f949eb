//! Numbers for a block of rows, and arithmetic on all of them at once.
ghost use Rattle.std.specs.Prelude.{◌≡◌, ℕ, ◌≤◌, IfOk, length, map};
ghost use Rattle.pj_block.specs.Blocks.{of_two, of_parts, numbers_of, totals, parts_by};

use pj_value::NoMemory;
use std::alloc::Global;

/// A sum or a product.
#[derive(Clone, Copy)]
pub(crate) enum Arith {
    Add,
    Mul,
}

/// What a division gives.
#[derive(Clone, Copy)]
pub(crate) enum Part {
    Quotient,
    Remainder,
}

/// A number for each row.
#[derive(Drop)]
pub(crate) enum Numbers<'a> {
    /// One for all rows.
    Same(u64),
    /// Those of a column.
    Lent(&'a [u64]),
    /// Those that were computed, whose memory the next step takes over.
    Own(Vec<u64>),
}

impl Arith {
    /// The sum or the product of two numbers, modulo 2^64.
    fn of(self, a: u64, b: u64) -> u64
        ensures { result ≡ of_two self a b }
    {
        match self {
            Arith::Add => a.wrapping_add(b),
            Arith::Mul => a.wrapping_mul(b),
        }
    }
}

impl Part {
    /// The quotient or the remainder.
    fn of(self, number: u64, divisor: u64) -> u64
        requires { 1 ≤ divisor }
        ensures { result ≡ of_parts self number divisor }
    {
        match self {
            Part::Quotient => number / divisor,
            Part::Remainder => number % divisor,
        }
    }
}

/// The numbers as a vector of their own.
pub(crate) fn into_vec(
    alloc: Global,
    numbers: Numbers<'_>,
    len: usize,
) -> Result<Vec<u64>, NoMemory>
    ensures { IfOk result (λ ns. ns.items ≡ numbers_of len numbers.entry) }
{
    match numbers {
        Numbers::Same(number) => Ok(vec![in alloc; number; len]?),
        Numbers::Lent(lent) => Ok(Vec::from_slice(alloc, lent)?),
        Numbers::Own(own) => Ok(own),
    }
}

/// The quotients or the remainders of all numbers by one divisor.
pub(crate) fn divided<'a>(
    alloc: Global,
    part: Part,
    a: Numbers<'a>,
    d: u64,
) -> Result<Numbers<'a>, NoMemory>
    requires { 1 ≤ d }
    ensures { IfOk result (λ ns. (len : ℕ) → numbers_of len ns ≡ parts_by part d (numbers_of len a.entry)) }
{
    match a {
        Numbers::Same(number) => Ok(Numbers::Same(part.of(number, d))),
        Numbers::Lent(lent) => {
            let mut own = Vec::from_slice(alloc, lent)?;
            divide_each(part, &mut own, d);
            Ok(Numbers::Own(own))
        }
        Numbers::Own(mut own) => {
            divide_each(part, &mut own, d);
            Ok(Numbers::Own(own))
        }
    }
}

/// The sums or the products of the numbers of two blocks, row by row.
pub(crate) fn computed<'a>(
    alloc: Global,
    arith: Arith,
    a: Numbers<'a>,
    b: Numbers<'a>,
    n: usize,
) -> Result<Numbers<'a>, NoMemory>
    requires first { length (numbers_of n a) ≡ n }
    requires second { length (numbers_of n b) ≡ n }
    ensures { IfOk result (λ r. numbers_of n r ≡ totals arith (numbers_of n a.entry) (numbers_of n b.entry)) }
{
    match b {
        Numbers::Same(number) => with_number(alloc, arith, a, number, n),
        Numbers::Lent(lent) => with_numbers(alloc, arith, a, lent, n),
        Numbers::Own(own) => with_numbers(alloc, arith, a, own.as_slice(), n),
    }
}

/// The sums or the products of all numbers with one number.
fn with_number<'a>(
    alloc: Global,
    arith: Arith,
    a: Numbers<'a>,
    b: u64,
    len: usize,
) -> Result<Numbers<'a>, NoMemory>
    ensures { IfOk result (λ m. numbers_of len m ≡ map (λ n. of_two arith n b) (numbers_of len a.entry)) }
{
    match a {
        Numbers::Same(first) => Ok(Numbers::Same(arith.of(first, b))),
        Numbers::Lent(lent) => {
            let found = each_with_number(alloc, arith, lent, b)?;
            Ok(Numbers::Own(found))
        }
        Numbers::Own(mut own) => {
            combine_each(arith, &mut own, b);
            Ok(Numbers::Own(own))
        }
    }
}

/// The sums or the products of the numbers with those of a slice, row by row.
fn with_numbers<'a>(
    alloc: Global,
    arith: Arith,
    a: Numbers<'a>,
    more: &[u64],
    len: usize,
) -> Result<Numbers<'a>, NoMemory>
    requires first { length (numbers_of len a) ≡ len }
    requires second { length more.now ≡ len }
    ensures { IfOk result (λ ns. numbers_of len ns ≡ totals arith (numbers_of len a.entry) more.now) }
{
    match a {
        Numbers::Same(first) => {
            let found = each_with_number(alloc, arith, more, first)?;
            Ok(Numbers::Own(found))
        }
        Numbers::Lent(lent) => {
            let mut own = Vec::from_slice(alloc, lent)?;
            combine_rows(arith, &mut own, more);
            Ok(Numbers::Own(own))
        }
        Numbers::Own(mut own) => {
            combine_rows(arith, &mut own, more);
            Ok(Numbers::Own(own))
        }
    }
}

/// The sums or the products of the numbers of a slice with one number.
fn each_with_number(
    alloc: Global,
    arith: Arith,
    numbers: &[u64],
    number: u64,
) -> Result<Vec<u64>, NoMemory>
    ensures { IfOk result (λ ns. ns.items ≡ map (λ n. of_two arith n number) numbers.now) }
{
    let mut own = Vec::from_slice(alloc, numbers)?;
    combine_each(arith, &mut own, number);
    Ok(own)
}

/// Divides each number in its place.
fn divide_each(part: Part, numbers: &mut [u64], divisor: u64)
    requires { 1 ≤ divisor }
    ensures { numbers.new ≡ parts_by part divisor numbers.old }
{
    for n in numbers.iter_mut() {
        *n = part.of(*n, divisor);
    }
}

/// Adds a number to each, or multiplies each by it, in its place.
fn combine_each(arith: Arith, numbers: &mut [u64], number: u64)
    ensures { numbers.new ≡ map (λ n. of_two arith n number) numbers.old }
{
    for n in numbers.iter_mut() {
        *n = arith.of(*n, number);
    }
}

/// Adds to each number that of its row, or multiplies it by that, in its place.
fn combine_rows(arith: Arith, numbers: &mut [u64], more: &[u64])
    requires { length numbers.old ≡ length more.now }
    ensures { numbers.new ≡ totals arith numbers.old more.now }
{
    for (at, n) in numbers.iter_mut().enumerate() {
        *n = arith.of(*n, more[at]);
    }
}
