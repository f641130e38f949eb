//! States of one value, and states by their aggregate: that they are lifted, joined and finished.
ghost use Rattle.std.specs.Prelude.{◌≡◌, IfOk};
ghost use Rattle.pj_value.specs.declared.value.Kind.{Kind};
ghost use Rattle.pj_agg.specs.AggStates.{agg_of, IsOf};
ghost use Rattle.pj_agg.specs.StateColumns.{Takes};

use crate::states::{has_bytes, is_written_as, state_of_texts};
use pj_agg::*;
use pj_value::*;
use std::alloc::Global;
use std::test::Fail;

/// Whether the state of one number has these bytes, through the bound.
fn is_lifted_to<S: State>(alloc: Global, number: u64, wanted: &[u8]) -> Result<bool, NoMemory>
    requires { S.takes Kind.Num }
{
    let state = S::lift(alloc, Cell::Num(number))?;
    has_bytes(alloc, &state, wanted)
}

/// Whether the state of an aggregate of one number has these bytes.
fn number_has_bytes(
    alloc: Global,
    agg: AggKind,
    number: u64,
    wanted: &[u8],
) -> Result<bool, NoMemory> {
    match agg {
        AggKind::Count => is_lifted_to::<CountState>(alloc, number, wanted),
        AggKind::Sum => is_lifted_to::<SumState>(alloc, number, wanted),
        AggKind::Min => is_lifted_to::<MinState>(alloc, number, wanted),
        AggKind::Max => is_lifted_to::<MaxState>(alloc, number, wanted),
        AggKind::UniqExact => is_lifted_to::<UniqState>(alloc, number, wanted),
    }
}

/// Whether it has these bytes as the state of any aggregate.
fn any_has_bytes(
    alloc: Global,
    agg: AggKind,
    number: u64,
    wanted: &[u8],
) -> Result<bool, NoMemory> {
    let state = AggState::lift(alloc, agg, Cell::Num(number))?;
    is_written_as(alloc, &state, wanted)
}

/// The bytes of the states of the number 7.
static OF_SEVEN: [(AggKind, &[u8]); 5] = [
    (AggKind::Count, b"\x01\0\0\0\0\0\0\0"),
    (AggKind::Sum, b"\x07\0\0\0\0\0\0\0"),
    (AggKind::Min, b"\x01\x07\0\0\0\0\0\0\0"),
    (AggKind::Max, b"\x01\x07\0\0\0\0\0\0\0"),
    (AggKind::UniqExact, b"\x01\0\0\0\0\0\0\0\x07\0\0\0\0\0\0\0"),
];

#[test]
fn one_value_has_the_bytes_of_its_state(rt: HostRuntime) -> Result<(), Fail> {
    for (agg, bytes) in &OF_SEVEN {
        assert!(rt; number_has_bytes(rt.alloc(), *agg, 7, bytes)?, "{agg:?}");
        assert!(rt; any_has_bytes(rt.alloc(), *agg, 7, bytes)?, "{agg:?}");
    }
    Ok(())
}

/// Joins a state of these texts to a state of texts.
fn join_texts(
    state: &mut AggState,
    alloc: Global,
    agg: AggKind,
    texts: &[&[u8]],
) -> Result<(), NoMemory>
    requires takes { Takes agg Kind.Text }
    requires agg { agg_of state.old ≡ agg }
    requires kind { IsOf Kind.Text state.old }
{
    let other = state_of_texts(alloc, agg, texts)?;
    state.join(alloc, &other)
}

/// A state of two lists of texts that were added up apart.
fn joined_texts(
    alloc: Global,
    agg: AggKind,
    left: &[&[u8]],
    right: &[&[u8]],
) -> Result<AggState, NoMemory>
    requires { Takes agg Kind.Text }
{
    let mut state = state_of_texts(alloc, agg, left)?;
    join_texts(&mut state, alloc, agg, right)?;
    Ok(state)
}

/// Whether a state is finished to this value: a number, or a text of these bytes.
fn ends_as(alloc: Global, state: &AggState, number: u64, bytes: &[u8]) -> Result<bool, NoMemory> {
    match state.finish(alloc)? {
        Value::Num(found) => Ok(found == number),
        Value::Text(found) => Ok(found.as_slice() == bytes),
    }
}

/// Whether a state of an aggregate of two lists of texts is finished to this value. There is none of a sum.
fn texts_end_as(
    alloc: Global,
    agg: AggKind,
    left: &[&[u8]],
    right: &[&[u8]],
    number: u64,
    bytes: &[u8],
) -> Result<bool, NoMemory> {
    match agg {
        AggKind::Sum => Ok(false),
        _ => {
            let state = joined_texts(alloc, agg, left, right)?;
            ends_as(alloc, &state, number, bytes)
        }
    }
}

/// Two lists of texts, and the aggregate of both: a number, or a text of these bytes.
static TEXTS: [(AggKind, &[&[u8]], &[&[u8]], u64, &[u8]); 7] = [
    (AggKind::Count, &[b"a"], &[b"b", b"b"], 3, b"no number"),
    (AggKind::Min, &[b"b", b"ab"], &[b"aa", b"c"], 1, b"aa"),
    (AggKind::Min, &[], &[b"b"], 1, b"b"),
    (AggKind::Max, &[b"b", b"ab"], &[b"ba", b"a"], 1, b"ba"),
    (AggKind::Max, &[b"b"], &[], 0, b"b"),
    (AggKind::Max, &[], &[], 1, b""),
    (
        AggKind::UniqExact,
        &[b"bc", b""],
        &[b"a", b"bc"],
        3,
        b"no number",
    ),
];

#[test]
fn joined_texts_are_finished_to_the_aggregate_of_both(rt: HostRuntime) -> Result<(), Fail> {
    for (agg, left, right, number, bytes) in &TEXTS {
        assert!(rt;
            texts_end_as(rt.alloc(), *agg, left, right, *number, bytes)?,
            "{agg:?} of {left:?} and {right:?}"
        );
    }
    Ok(())
}
