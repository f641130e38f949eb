//! Which granules can hold a key of a range.
ghost use Rattle.std.specs.Prelude.{◌≡◌, ℕ, Bool, ◌<◌, ◌≤◌, [], length, not, take, slice_index_or};
ghost use Rattle.pj_value.specs.Order.{row_cmp};
ghost use Rattle.pj_index.specs.Selection.{selected, IsSpanOf, NeverFalls, is_above, is_below, first_of, end_of};
ghost use Rattle.pj_index.specs.Splits.{Computes, Falls, SplitsAt};

use crate::keys::{KeyMarks, KeyRange, Span};
use pj_value::{Rows, Value, cell_cmp};
use std::cmp::Ordering;

/// The granules that can hold a row whose key is in the range: those that neither begin above it nor end below it.
/// A granule ends with the first key of the next one, and the last granule with the last key, so the granule before
/// one that begins with a key is selected for it too. They stand side by side; where there is none the span is
/// `0..0`.
///
/// It takes no memory, and the number of keys that it looks at grows with the logarithm of the number of granules.
pub fn select(marks: &KeyMarks, range: &KeyRange) -> Span
    requires { NeverFalls marks.now }
    ensures { IsSpanOf (selected marks.now range.now) result }
{
    let granules = marks.firsts.len();
    let from = first_failing(
        granules,
        |granule| ends_below(marks, range.low.as_slice(), granule),
    );
    let to = first_failing(
        granules,
        |granule| begins_within(marks, range.high.as_slice(), granule),
    );
    span_between(from, to)
}

/// The granules from one on and before another, and `0..0` where there is none.
fn span_between(from: usize, to: usize) -> Span
    ensures some { from < to → result ≡ record { from = from; to = to } }
    ensures none { to ≤ from → result ≡ record { from = 0; to = 0 } }
{
    if from < to {
        Span { from, to }
    } else {
        Span { from: 0, to: 0 }
    }
}

/// The first number below `len` at which the test fails, or `len` where it holds of them all. It is to fail from that
/// number on: so each call of it settles half of the numbers that are left.
fn first_failing<F: Fn(usize) -> bool>(len: usize, test: F) -> usize
    requires { (number : ℕ) → number < len → F.pre test number }
    ensures { (holds : ℕ → Bool) → Computes (F.post test) holds len → Falls holds len → SplitsAt holds len result }
{
    let mut from = 0;
    let mut to = len;
    'halves: while from < to {
        let middle = from + (to - from) / 2;
        if test(middle) {
            from = middle + 1;
        } else {
            to = middle;
        }
    }
    from
}

/// Whether all keys of a granule are below a bound.
fn ends_below(marks: &KeyMarks, low: &[Value], granule: usize) -> bool
    requires { granule < length marks.now.firsts.rows }
    ensures { result ≡ is_below low.now (end_of marks.now granule) }
{
    let granules = marks.firsts.len();
    let next = granule + 1;
    if next < granules {
        first_cmp(&marks.firsts, next, low).is_lt()
    } else {
        key_cmp(marks.last.as_slice(), low).is_lt()
    }
}

/// Whether the first key of a granule isn't above a bound.
fn begins_within(marks: &KeyMarks, high: &[Value], granule: usize) -> bool
    requires { granule < length marks.now.firsts.rows }
    ensures { result ≡ not (is_above high.now (first_of marks.now granule)) }
{
    !first_cmp(&marks.firsts, granule, high).is_gt()
}

/// How the first key of a granule, cut to the length of a bound, stands to the bound.
fn first_cmp(firsts: &Rows, granule: usize, bound: &[Value]) -> Ordering
    requires { granule < length firsts.now.rows }
    ensures { result ≡ row_cmp (take (length bound.now) (slice_index_or firsts.now.rows granule [])) bound.now }
{
    let width = firsts.kinds().len();
    'columns: for column in 0..bound.len() {
        // A key that ends inside the bound is a proper prefix of it.
        if column >= width {
            return Ordering::Less;
        }
        match cell_cmp(firsts.cell(granule, column), bound[column].as_cell()) {
            Ordering::Equal => {}
            other => return other,
        }
    }
    Ordering::Equal
}

/// How a key, cut to the length of a bound, stands to the bound.
fn key_cmp(key: &[Value], bound: &[Value]) -> Ordering
    ensures { result ≡ row_cmp (take (length bound.now) key.now) bound.now }
{
    'values: for at in 0..bound.len() {
        if at >= key.len() {
            return Ordering::Less;
        }
        match cell_cmp(key[at].as_cell(), bound[at].as_cell()) {
            Ordering::Equal => {}
            other => return other,
        }
    }
    Ordering::Equal
}
