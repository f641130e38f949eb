//! States of aggregates: that calls succeed where memory is ample, and bytes that were worked out by hand.
ghost use Rattle.std.specs.Prelude.{◌≡◌, ◌+◌, ◌<◌, IfOk, OnOk, length};
ghost use Rattle.std.specs.List.{All};
ghost use Rattle.pj_value.specs.declared.value.Kind.{Kind};
ghost use Rattle.pj_value.specs.declared.value.AggKind.{AggKind};
ghost use Rattle.pj_value.specs.declared.value.AggKind.TheVariants as aggregates;
ghost use Rattle.pj_agg.specs.AggStates.{agg_of, IsOf};
ghost use Rattle.pj_agg.specs.StateColumns.{Takes};

use pj_agg::*;
use pj_value::*;
use std::alloc::Global;
use std::test::Fail;

/// A state of these numbers, through the bound.
fn state_of<S: State>(alloc: Global, numbers: &[u64]) -> Result<S, NoMemory>
    requires { S.takes Kind.Num }
    ensures { IfOk result (S.is_of Kind.Num) }
{
    let mut state = S::unit(alloc, Kind::Num);
    'numbers: for number in numbers {
        state.add(alloc, Cell::Num(*number))?;
    }
    Ok(state)
}

/// A state of two lists of numbers that were added up apart.
fn joined<S: State>(alloc: Global, left: &[u64], right: &[u64]) -> Result<S, NoMemory>
    requires { S.takes Kind.Num }
    ensures { IfOk result (S.is_of Kind.Num) }
{
    let mut state: S = state_of(alloc, left)?;
    let other: S = state_of(alloc, right)?;
    state.join(alloc, &other)?;
    Ok(state)
}

/// A state of the numbers below 10,000, the greatest first, each divided by the same.
fn falling<S: State>(alloc: Global, divisor: u64) -> Result<S, NoMemory>
    requires takes { S.takes Kind.Num }
    requires divisor { 0 < divisor }
    ensures { IfOk result (S.is_of Kind.Num) }
{
    let mut state = S::unit(alloc, Kind::Num);
    'numbers: for number in (0..10_000u64).rev() {
        state.add(alloc, Cell::Num(number / divisor))?;
    }
    Ok(state)
}

/// Whether a state has these bytes.
pub(crate) fn has_bytes<S: State>(
    alloc: Global,
    state: &S,
    wanted: &[u8],
) -> Result<bool, NoMemory> {
    let mut bytes = Vec::new(alloc);
    state.encode(&mut bytes)?;
    Ok(bytes.as_slice() == wanted)
}

/// Whether a state is finished to this number.
fn is_finished_to<S: State>(alloc: Global, state: &S, wanted: u64) -> Result<bool, NoMemory> {
    match state.finish(alloc)? {
        Value::Num(number) => Ok(number == wanted),
        Value::Text(_) => Ok(false),
    }
}

/// Whether a state of these numbers has these bytes.
fn have_bytes<S: State>(alloc: Global, numbers: &[u64], wanted: &[u8]) -> Result<bool, NoMemory>
    requires { S.takes Kind.Num }
{
    let state: S = state_of(alloc, numbers)?;
    has_bytes(alloc, &state, wanted)
}

/// Whether a state of two lists of numbers is finished to this number.
fn are_finished_to<S: State>(
    alloc: Global,
    left: &[u64],
    right: &[u64],
    wanted: u64,
) -> Result<bool, NoMemory>
    requires { S.takes Kind.Num }
{
    let state: S = joined(alloc, left, right)?;
    is_finished_to(alloc, &state, wanted)
}

/// Whether a state of an aggregate of these numbers has these bytes.
fn numbers_have_bytes(
    alloc: Global,
    agg: AggKind,
    numbers: &[u64],
    wanted: &[u8],
) -> Result<bool, NoMemory> {
    match agg {
        AggKind::Count => have_bytes::<CountState>(alloc, numbers, wanted),
        AggKind::Sum => have_bytes::<SumState>(alloc, numbers, wanted),
        AggKind::Min => have_bytes::<MinState>(alloc, numbers, wanted),
        AggKind::Max => have_bytes::<MaxState>(alloc, numbers, wanted),
        AggKind::UniqExact => have_bytes::<UniqState>(alloc, numbers, wanted),
    }
}

/// Puts a text behind those that a state stands for.
fn add_text(state: &mut AggState, alloc: Global, bytes: &[u8]) -> Result<(), NoMemory>
    requires { IsOf Kind.Text state.old }
    ensures kind { IsOf Kind.Text state.new }
    ensures agg { agg_of state.new ≡ agg_of state.old }
{
    let text = Text::new(alloc, bytes)?;
    state.add(alloc, Cell::Text(&text))
}

/// A state of these texts.
pub(crate) fn state_of_texts(
    alloc: Global,
    agg: AggKind,
    texts: &[&[u8]],
) -> Result<AggState, NoMemory>
    requires { Takes agg Kind.Text }
    ensures kind { IfOk result (IsOf Kind.Text) }
    ensures agg { IfOk result (λ s. agg_of s ≡ agg) }
{
    let mut state = AggState::unit(alloc, agg, Kind::Text);
    'texts: for bytes in texts {
        add_text(&mut state, alloc, bytes)?;
    }
    Ok(state)
}

/// Whether a state by its aggregate has these bytes.
pub(crate) fn is_written_as(
    alloc: Global,
    state: &AggState,
    wanted: &[u8],
) -> Result<bool, NoMemory> {
    let mut bytes = Vec::new(alloc);
    state.encode(&mut bytes)?;
    Ok(bytes.as_slice() == wanted)
}

/// Whether a state of an aggregate of these texts has these bytes. There is none of a sum.
fn texts_have_bytes(
    alloc: Global,
    agg: AggKind,
    texts: &[&[u8]],
    wanted: &[u8],
) -> Result<bool, NoMemory> {
    match agg {
        AggKind::Sum => Ok(false),
        _ => {
            let state = state_of_texts(alloc, agg, texts)?;
            is_written_as(alloc, &state, wanted)
        }
    }
}

/// The bytes of the distinct numbers 1, 3, 4 and 5.
const FOUR: &[u8] =
    b"\x04\0\0\0\0\0\0\0\x01\0\0\0\0\0\0\0\x03\0\0\0\0\0\0\0\x04\0\0\0\0\0\0\0\x05\0\0\0\0\0\0\0";

/// Numbers, and the bytes of the state of an aggregate of them.
static OF_NUMBERS: [(AggKind, &[u64], &[u8]); 7] = [
    (AggKind::Count, &[5, 5, 6], b"\x03\0\0\0\0\0\0\0"),
    (
        AggKind::Sum,
        &[18446744073709551615, 2],
        b"\x01\0\0\0\0\0\0\0",
    ),
    (AggKind::Min, &[], b"\0"),
    (AggKind::Min, &[7, 258, 9], b"\x01\x07\0\0\0\0\0\0\0"),
    (AggKind::Max, &[7, 258, 9], b"\x01\x02\x01\0\0\0\0\0\0"),
    (
        AggKind::UniqExact,
        &[3, 1, 3],
        b"\x02\0\0\0\0\0\0\0\x01\0\0\0\0\0\0\0\x03\0\0\0\0\0\0\0",
    ),
    (AggKind::UniqExact, &[1, 3, 4, 5], FOUR),
];

/// Texts, and the bytes of the state of an aggregate of them.
static OF_TEXTS: [(AggKind, &[&[u8]], &[u8]); 4] = [
    (AggKind::Max, &[b"a", b"b"], b"\x01b"),
    (AggKind::Min, &[b"b", b"", b"a"], b"\x01"),
    (AggKind::Min, &[], b"\0"),
    (
        AggKind::UniqExact,
        &[b"bc", b"", b"bc"],
        b"\x02\0\0\0\0\0\0\0\0\0\0\0\0\0\0\0\x02\0\0\0\0\0\0\0bc",
    ),
];

#[test]
fn states_have_the_bytes_that_were_worked_out_by_hand(rt: HostRuntime) -> Result<(), Fail> {
    for (agg, numbers, bytes) in &OF_NUMBERS {
        assert!(rt;
            numbers_have_bytes(rt.alloc(), *agg, numbers, bytes)?,
            "{agg:?} of {numbers:?}"
        );
    }
    for (agg, texts, bytes) in &OF_TEXTS {
        assert!(rt;
            texts_have_bytes(rt.alloc(), *agg, texts, bytes)?,
            "{agg:?} of {texts:?}"
        );
    }
    Ok(())
}

/// Whether bytes are read as a state that is written as these bytes again.
fn is_read_back(alloc: Global, agg: AggKind, kind: Kind, bytes: &[u8]) -> Result<bool, NoMemory> {
    match AggState::decode(alloc, agg, kind, bytes) {
        Ok(state) => is_written_as(alloc, &state, bytes),
        Err(_) => Ok(false),
    }
}

/// Whether bytes are refused as damaged.
fn is_damaged(alloc: Global, agg: AggKind, kind: Kind, bytes: &[u8]) -> bool {
    match AggState::decode(alloc, agg, kind, bytes) {
        Ok(_) => false,
        Err(fault) => fault == StateFault::Damaged,
    }
}

/// Whether bytes are damaged where the last of them are missing, however many.
fn are_fronts_damaged(alloc: Global, agg: AggKind, kind: Kind, bytes: &[u8]) -> bool {
    for len in 0..bytes.len() {
        if !is_damaged(alloc, agg, kind, &bytes[..len]) {
            return false;
        }
    }
    true
}

/// Whether bytes are damaged with one more behind them.
fn is_longer_damaged(
    alloc: Global,
    agg: AggKind,
    kind: Kind,
    bytes: &[u8],
) -> Result<bool, NoMemory> {
    let mut longer = Vec::from_slice(alloc, bytes)?;
    longer.push(0)?;
    Ok(is_damaged(alloc, agg, kind, longer.as_slice()))
}

/// States with their bytes, of which none is the front of another.
static WHOLE: [(AggKind, Kind, &[u8]); 6] = [
    (AggKind::Count, Kind::Text, b"\x03\0\0\0\0\0\0\0"),
    (AggKind::Sum, Kind::Num, b"\xff\0\0\0\0\0\0\x80"),
    (AggKind::Max, Kind::Num, b"\x01\x07\0\0\0\0\0\0\0"),
    (
        AggKind::UniqExact,
        Kind::Num,
        b"\x02\0\0\0\0\0\0\0\x01\0\0\0\0\0\0\0\x03\0\0\0\0\0\0\0",
    ),
    (
        AggKind::UniqExact,
        Kind::Text,
        b"\x02\0\0\0\0\0\0\0\0\0\0\0\0\0\0\0\x02\0\0\0\0\0\0\0bc",
    ),
    (AggKind::UniqExact, Kind::Num, b"\0\0\0\0\0\0\0\0"),
];

/// States with their bytes, of which some are the front of another.
static SHORT: [(AggKind, Kind, &[u8]); 3] = [
    (AggKind::Min, Kind::Text, b"\0"),
    (AggKind::Min, Kind::Text, b"\x01"),
    (AggKind::Max, Kind::Num, b"\0"),
];

/// Bytes of no state: values that fall, and that stand twice; a count alone; a text that is too long; a sum of texts;
/// neither no value nor one; and bytes behind no value.
static DAMAGED: [(AggKind, Kind, &[u8]); 7] = [
    (
        AggKind::UniqExact,
        Kind::Num,
        b"\x02\0\0\0\0\0\0\0\x03\0\0\0\0\0\0\0\x01\0\0\0\0\0\0\0",
    ),
    (
        AggKind::UniqExact,
        Kind::Num,
        b"\x02\0\0\0\0\0\0\0\x03\0\0\0\0\0\0\0\x03\0\0\0\0\0\0\0",
    ),
    (
        AggKind::UniqExact,
        Kind::Num,
        b"\xff\xff\xff\xff\xff\xff\xff\xff",
    ),
    (
        AggKind::UniqExact,
        Kind::Text,
        b"\x01\0\0\0\0\0\0\0\xff\xff\xff\xff\xff\xff\xff\xffa",
    ),
    (AggKind::Sum, Kind::Text, b"\x01\0\0\0\0\0\0\0"),
    (AggKind::Min, Kind::Text, b"\x02a"),
    (AggKind::Min, Kind::Text, b"\0a"),
];

#[test]
fn states_are_read_whole_and_with_nothing_behind_them(rt: HostRuntime) -> Result<(), Fail> {
    let alloc = rt.alloc();
    for (agg, kind, bytes) in &WHOLE {
        let (agg, kind) = (*agg, *kind);
        assert!(rt; is_read_back(alloc, agg, kind, bytes)?, "{bytes:?}");
        assert!(rt; are_fronts_damaged(alloc, agg, kind, bytes), "{bytes:?}");
        assert!(rt; is_longer_damaged(alloc, agg, kind, bytes)?, "{bytes:?}");
    }
    Ok(())
}

#[test]
fn bytes_of_no_state_are_damaged(rt: HostRuntime) -> Result<(), Fail> {
    for (agg, kind, bytes) in &DAMAGED {
        assert!(rt; is_damaged(rt.alloc(), *agg, *kind, bytes), "{bytes:?}");
    }
    for (agg, kind, bytes) in &SHORT {
        assert!(rt; is_read_back(rt.alloc(), *agg, *kind, bytes)?, "{bytes:?}");
    }
    Ok(())
}

/// Whether a state of an aggregate of two lists of numbers is finished to this number.
fn numbers_are_finished_to(
    alloc: Global,
    agg: AggKind,
    left: &[u64],
    right: &[u64],
    wanted: u64,
) -> Result<bool, NoMemory> {
    match agg {
        AggKind::Count => are_finished_to::<CountState>(alloc, left, right, wanted),
        AggKind::Sum => are_finished_to::<SumState>(alloc, left, right, wanted),
        AggKind::Min => are_finished_to::<MinState>(alloc, left, right, wanted),
        AggKind::Max => are_finished_to::<MaxState>(alloc, left, right, wanted),
        AggKind::UniqExact => are_finished_to::<UniqState>(alloc, left, right, wanted),
    }
}

/// Two lists of numbers, and what the aggregate of both is.
static JOINED: [(AggKind, &[u64], &[u64], u64); 8] = [
    (AggKind::Count, &[5, 5], &[6], 3),
    (AggKind::Sum, &[5, 1], &[18446744073709551615], 5),
    (AggKind::Min, &[], &[9, 8], 8),
    (AggKind::Min, &[7, 9], &[8], 7),
    (AggKind::Max, &[9, 8], &[], 9),
    (AggKind::Max, &[8], &[7, 258], 258),
    (AggKind::Max, &[], &[], 0),
    (AggKind::UniqExact, &[5, 1, 3], &[3, 4, 1], 4),
];

#[test]
fn joined_states_stand_for_both_lists(rt: HostRuntime) -> Result<(), Fail> {
    for (agg, left, right, wanted) in &JOINED {
        assert!(rt;
            numbers_are_finished_to(rt.alloc(), *agg, left, right, *wanted)?,
            "{agg:?} of {left:?} and {right:?}"
        );
    }
    Ok(())
}

/// Whether the distinct ones of two lists of numbers have these bytes.
fn distinct_have_bytes(
    alloc: Global,
    left: &[u64],
    right: &[u64],
    wanted: &[u8],
) -> Result<bool, NoMemory> {
    let state: UniqState = joined(alloc, left, right)?;
    has_bytes(alloc, &state, wanted)
}

#[test]
fn what_both_lists_have_stands_once(rt: HostRuntime) -> Result<(), Fail> {
    assert!(rt; distinct_have_bytes(rt.alloc(), &[5, 1, 3], &[3, 4, 1], FOUR)?);
    Ok(())
}

/// Whether there are so many distinct ones of the numbers below 10,000, each divided by the same.
fn falling_are(alloc: Global, divisor: u64, wanted: u64) -> Result<bool, NoMemory>
    requires { 0 < divisor }
{
    let state: UniqState = falling(alloc, divisor)?;
    is_finished_to(alloc, &state, wanted)
}

/// Whether there are so many distinct ones of their halves and of the numbers themselves.
fn joined_falling_are(alloc: Global, wanted: u64) -> Result<bool, NoMemory> {
    let mut halves: UniqState = falling(alloc, 2)?;
    let whole: UniqState = falling(alloc, 1)?;
    halves.join(alloc, &whole)?;
    is_finished_to(alloc, &halves, wanted)
}

#[test]
fn many_falling_values_are_counted_once_each(rt: HostRuntime) -> Result<(), Fail> {
    assert!(rt; falling_are(rt.alloc(), 1, 10_000)?);
    assert!(rt; falling_are(rt.alloc(), 2, 5_000)?);
    assert!(rt; joined_falling_are(rt.alloc(), 10_000)?);
    Ok(())
}

/// The aggregate of each of some groups, to which values were added in two calls.
fn aggregates(
    alloc: Global,
    agg: AggKind,
    groups: usize,
    numbers: &[usize],
    values: &Column,
) -> Result<Column, NoMemory>
    requires takes { Takes agg values.now.kind }
    requires len { length values.now.values ≡ length numbers.now }
    requires within { All (λ n. n < groups) numbers.now }
{
    let mut column = StateColumn::new(alloc, agg, values.kind());
    column.grow(alloc, groups)?;
    column.add(alloc, numbers, values)?;
    column.add(alloc, numbers, values)?;
    column.finish(alloc)
}

/// Whether a column has these numbers. One of texts has none.
fn has_numbers(column: &Column, wanted: &[u64]) -> bool {
    match column.numbers() {
        Some(numbers) => numbers == wanted,
        None => wanted.is_empty(),
    }
}

/// Whether a column has these texts. One of numbers has none.
fn has_texts(column: &Column, wanted: &[&[u8]]) -> bool {
    match column.texts() {
        Some(texts) => {
            texts.len() == wanted.len() && texts.iter().zip(wanted).all(|(t, w)| t.as_slice() == *w)
        }
        None => wanted.is_empty(),
    }
}

/// A column of these texts.
fn column_of(alloc: Global, texts: &[&[u8]]) -> Result<Column, NoMemory>
    ensures kind { IfOk result (λ c. c.kind ≡ Kind.Text) }
    ensures len { IfOk result (λ c. length c.values ≡ length texts.now) }
{
    let mut held = Vec::new(alloc);
    'texts: for bytes in texts {
        push_text(&mut held, alloc, bytes)?;
    }
    Ok(Column::from_texts(held))
}

/// Puts a text of these bytes behind others.
fn push_text(texts: &mut Vec<Text>, alloc: Global, bytes: &[u8]) -> Result<(), NoMemory>
    ensures { OnOk result (length texts.new.items ≡ length texts.old.items + 1) }
{
    let text = Text::new(alloc, bytes)?;
    texts.push(text)?;
    Ok(())
}

/// Whether an aggregate gives these numbers of 7, 1, 4, 7 and 2 in groups.
fn numbers_by_group_are(alloc: Global, agg: AggKind, wanted: &[u64]) -> Result<bool, NoMemory> {
    let numbers = Vec::from_slice(alloc, &[7, 1, 4, 7, 2])?;
    let values = Column::from_numbers(numbers);
    let found = aggregates(alloc, agg, 4, &[0, 2, 0, 0, 2], &values)?;
    Ok(has_numbers(&found, wanted))
}

/// What each aggregate gives of them.
static NUMBERS_BY_GROUP: [(AggKind, &[u64]); 5] = [
    (AggKind::Count, &[6, 0, 4, 0]),
    (AggKind::Sum, &[36, 0, 6, 0]),
    (AggKind::Min, &[4, 0, 1, 0]),
    (AggKind::Max, &[7, 0, 2, 0]),
    (AggKind::UniqExact, &[2, 0, 2, 0]),
];

#[test]
fn numbers_are_added_to_their_groups(rt: HostRuntime) -> Result<(), Fail> {
    for (agg, wanted) in &NUMBERS_BY_GROUP {
        assert!(rt; numbers_by_group_are(rt.alloc(), *agg, wanted)?, "{agg:?}");
    }
    Ok(())
}

/// Five texts.
const TEXTS: [&[u8]; 5] = [b"ab", b"b", b"", b"ab", b"a text of more than 23 bytes"];

/// Whether an aggregate gives these numbers, or these texts, of the five texts in groups. There is none of a sum.
fn texts_by_group_are(
    alloc: Global,
    agg: AggKind,
    numbers: &[u64],
    texts: &[&[u8]],
) -> Result<bool, NoMemory> {
    match agg {
        AggKind::Sum => Ok(false),
        _ => {
            let values = column_of(alloc, &TEXTS)?;
            let found = aggregates(alloc, agg, 3, &[1, 1, 0, 1, 1], &values)?;
            Ok(has_numbers(&found, numbers) && has_texts(&found, texts))
        }
    }
}

/// What aggregates give of them.
static TEXTS_BY_GROUP: [(AggKind, &[u64], &[&[u8]]); 4] = [
    (AggKind::Count, &[2, 8, 0], &[]),
    (AggKind::UniqExact, &[1, 3, 0], &[]),
    (
        AggKind::Min,
        &[],
        &[b"", b"a text of more than 23 bytes", b""],
    ),
    (AggKind::Max, &[], &[b"", b"b", b""]),
];

#[test]
fn texts_are_added_to_their_groups(rt: HostRuntime) -> Result<(), Fail> {
    for (agg, numbers, texts) in &TEXTS_BY_GROUP {
        assert!(rt;
            texts_by_group_are(rt.alloc(), *agg, numbers, texts)?,
            "{agg:?}"
        );
    }
    Ok(())
}

/// Whether five rows that are counted in three groups give these numbers.
fn counts_are(alloc: Global, wanted: &[u64]) -> Result<bool, NoMemory> {
    let mut column = StateColumn::new(alloc, AggKind::Count, Kind::Num);
    column.grow(alloc, 2)?;
    column.count(&[1, 0, 1]);
    column.grow(alloc, 3)?;
    column.count(&[1, 2]);
    let found = column.finish(alloc)?;
    Ok(column.len() == 3 && has_numbers(&found, wanted))
}

#[test]
fn rows_are_counted_in_their_groups(rt: HostRuntime) -> Result<(), Fail> {
    assert!(rt; counts_are(rt.alloc(), &[1, 3, 1])?);
    Ok(())
}
