//! What calls give for a group of rows. A plain program, a value at a time.
ghost use Rattle.std.specs.Prelude.{◌≡◌, ◌<◌, ◌+◌, ◌%◌, ◌^◌, IfOk, length, map, sum, drop, slice_index_or};
ghost use Rattle.pj_value.specs.declared.value.Value.TheVariants as values;
ghost use Rattle.pj_value.specs.Values.{value_of};
ghost use Rattle.pj_value.specs.Aggregates.{number_in, default, has_value, distinct, lesser, greater};
ghost use Rattle.pj_value.specs.Aggregates.{least, greatest, aggregate};
ghost use Rattle.pj_expr.specs.Fits.{FitsCallOf};
ghost use Rattle.pj_answer.specs.Answers.{call_value, call_kind};

use pj_block::eval_block;
use pj_expr::{AggCall, kind_of_expr, number_of};
use pj_value::{AggKind, Cell, Column, Kind, NoMemory, Rows, Text, Value, cell_cmp};
use std::alloc::Global;

/// What a call gives for a group of rows. To count distinct values it compares each with all behind it.
pub(crate) fn value_of_call(alloc: Global, call: &AggCall, group: &Rows) -> Result<Value, NoMemory>
    requires { FitsCallOf group.now.kinds call.now.kind call.now.argument }
    ensures { IfOk result
        (λ v. v ≡ call_value group.now.kinds call.now.kind call.now.argument group.now.rows) }
{
    match &call.argument {
        None => Ok(Value::Num(group.len() as u64)),
        Some(argument) => {
            let column = eval_block(alloc, argument, group)?;
            aggregate(alloc, call.kind, &column)
        }
    }
}

/// The kind of a call, that of numbers where its argument doesn't fit.
pub(crate) fn kind_of_call(call: &AggCall, kinds: &[Kind]) -> Kind
    ensures { result ≡ call_kind kinds.now call.now.kind call.now.argument }
{
    match &call.argument {
        None => Kind::Num,
        Some(argument) => match (call.kind, kind_of_expr(argument, kinds)) {
            (AggKind::Min, Some(kind)) => kind,
            (AggKind::Max, Some(kind)) => kind,
            _ => Kind::Num,
        },
    }
}

/// An aggregate of the values of a column.
fn aggregate(alloc: Global, kind: AggKind, column: &Column) -> Result<Value, NoMemory>
    ensures { IfOk result (λ v. v ≡ aggregate kind column.now.kind column.now.values) }
{
    match kind {
        AggKind::Count => Ok(Value::Num(column.len() as u64)),
        AggKind::Sum => Ok(Value::Num(sum(column))),
        AggKind::Min => least(alloc, column),
        AggKind::Max => greatest(alloc, column),
        AggKind::UniqExact => Ok(Value::Num(distinct_len(column) as u64)),
    }
}

/// The sum of the numbers, modulo 2^64.
fn sum(column: &Column) -> u64
    ensures { result ≡ sum (map number_in column.now.values) % 2 ^ 64 }
{
    let mut total: u64 = 0;
    for at in 0..column.len() {
        total = total.wrapping_add(number_of(column.cell(at)));
    }
    total
}

/// The least value, and the default of the kind where there is none.
fn least(alloc: Global, column: &Column) -> Result<Value, NoMemory>
    ensures { IfOk result (λ v. v ≡ least column.now.kind column.now.values) }
{
    if column.len() == 0 {
        return Ok(default_of(alloc, column.kind()));
    }
    let mut found = column.cell(0);
    for at in 1..column.len() {
        found = lesser(found, column.cell(at));
    }
    found.to_value(alloc)
}

/// The greatest value, and the default of the kind where there is none.
fn greatest(alloc: Global, column: &Column) -> Result<Value, NoMemory>
    ensures { IfOk result (λ v. v ≡ greatest column.now.kind column.now.values) }
{
    if column.len() == 0 {
        return Ok(default_of(alloc, column.kind()));
    }
    let mut found = column.cell(0);
    for at in 1..column.len() {
        found = greater(found, column.cell(at));
    }
    found.to_value(alloc)
}

/// The value of a kind where there is none: 0, or the empty text.
fn default_of(alloc: Global, kind: Kind) -> Value
    ensures { result ≡ default kind }
{
    match kind {
        Kind::Num => Value::Num(0),
        Kind::Text => Value::Text(Text::from_vec(Vec::new(alloc))),
    }
}

/// The lesser of two values.
fn lesser<'a>(a: Cell<'a>, b: Cell<'a>) -> Cell<'a>
    ensures { value_of result ≡ lesser (value_of a.entry) (value_of b.entry) }
{
    if cell_cmp(b, a).is_lt() { b } else { a }
}

/// The greater of two values.
fn greater<'a>(a: Cell<'a>, b: Cell<'a>) -> Cell<'a>
    ensures { value_of result ≡ greater (value_of a.entry) (value_of b.entry) }
{
    if cell_cmp(a, b).is_lt() { b } else { a }
}

/// How many distinct values there are: those that don't stand again behind their index.
fn distinct_len(column: &Column) -> usize
    ensures { result ≡ length (distinct column.now.values) }
{
    let mut count = 0;
    for at in 0..column.len() {
        if !stands_again(column, at) {
            count += 1;
        }
    }
    count
}

/// Whether the value at an index stands behind it once more.
fn stands_again(column: &Column, at: usize) -> bool
    requires { at < length column.now.values }
    ensures { result ≡
        has_value (slice_index_or column.now.values at (values.Num 0)) (drop (at + 1) column.now.values) }
{
    let len = column.len();
    for later in at + 1..len {
        if cell_cmp(column.cell(at), column.cell(later)).is_eq() {
            return true;
        }
    }
    false
}
