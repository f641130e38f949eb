//! The least or the greatest of values of a kind, where there is one.
ghost use Rattle.std.specs.Prelude.{◌≡◌, ◌++◌, ◌∷◌, [], length, take, IfOk, IfSome, IsOk, OnOk, OnErr};
ghost use Rattle.std.specs.Prelude.{Option, if◌then◌else◌};
ghost use Rattle.pj_value.specs.declared.value.Kind.{Kind};
ghost use Rattle.pj_value.specs.declared.value.Kind.TheVariants as kinds;
ghost use Rattle.pj_value.specs.declared.value.Value.{Value};
ghost use Rattle.pj_value.specs.declared.value.Value.TheVariants as values;
ghost use Rattle.pj_value.specs.Values.{kind_of, value_of};
ghost use Rattle.pj_value.specs.Summaries.{IsOfKind, Extreme, finished, extreme_bytes};
ghost use Rattle.pj_agg.specs.States.{chosen, with_value, with_either, kept_kind, kept_value};

use crate::bytes::number_alone;
use crate::state::StateFault;
use pj_value::{Cell, Kind, NoMemory, Text, Value, cell_cmp};
use std::alloc::Global;

/// Which end of the order is kept.
#[derive(Clone, Copy, Debug)]
pub(crate) enum End {
    Least,
    Greatest,
}

/// The value that is kept, where there is one, by its kind.
#[derive(Debug, Drop)]
pub(crate) enum Kept {
    Num(Option<u64>),
    Text(Option<Text>),
}

impl Kept {
    /// No value of this kind.
    pub(crate) fn none(kind: Kind) -> Kept
        ensures kind { kept_kind result ≡ kind }
        ensures value { kept_value result ≡ None }
    {
        match kind {
            Kind::Num => Kept::Num(None),
            Kind::Text => Kept::Text(None),
        }
    }

    /// This value.
    pub(crate) fn one(alloc: Global, cell: Cell<'_>) -> Result<Kept, NoMemory>
        ensures kind { IfOk result (λ k. kept_kind k ≡ kind_of (value_of cell.entry)) }
        ensures value { IfOk result (λ k. kept_value k ≡ Some (value_of cell.entry)) }
    {
        match cell {
            Cell::Num(number) => Ok(Kept::Num(Some(number))),
            Cell::Text(text) => Ok(Kept::Text(Some(text.duplicate(alloc)?))),
        }
    }

    /// Keeps a value in place of the one there is, where it is nearer to the end.
    pub(crate) fn add(&mut self, alloc: Global, cell: Cell<'_>, end: End) -> Result<(), NoMemory>
        requires { kept_kind self.old ≡ kind_of (value_of cell) }
        ensures kind { kept_kind self.new ≡ kept_kind self.old }
        ensures added { OnOk result
            (kept_value self.new ≡ with_value (chosen end) (kept_value self.old) (value_of cell.entry)) }
        ensures same { OnErr result (self.new ≡ self.old) }
        ensures memory { kept_kind self.old ≡ kinds.Num → IsOk result }
    {
        match (self, cell) {
            (Kept::Num(held), Cell::Num(number)) => {
                *held = Some(nearer_number(*held, number, end));
                Ok(())
            }
            (Kept::Text(held), Cell::Text(text)) => keep_text(held, alloc, text, end),
            _ => unreachable!(),
        }
    }

    /// Keeps the value of another of this kind in place of the one there is, where it is nearer to the end.
    pub(crate) fn join(&mut self, alloc: Global, other: &Kept, end: End) -> Result<(), NoMemory>
        requires { kept_kind other.now ≡ kept_kind self.old }
        ensures kind { kept_kind self.new ≡ kept_kind self.old }
        ensures joined { OnOk result
            (kept_value self.new ≡ with_either (chosen end) (kept_value self.old) (kept_value other.now)) }
        ensures same { OnErr result (self.new ≡ self.old) }
        ensures memory { kept_kind self.old ≡ kinds.Num → IsOk result }
    {
        match other {
            Kept::Num(Some(number)) => self.add(alloc, Cell::Num(*number), end),
            Kept::Text(Some(text)) => self.add(alloc, Cell::Text(text), end),
            _ => Ok(()),
        }
    }

    /// The value, and that of its kind where there is none.
    pub(crate) fn finish(&self, alloc: Global) -> Result<Value, NoMemory>
        ensures value { IfOk result (λ v. v ≡ finished (kept_kind self.now) (Extreme (kept_value self.now))) }
        ensures kind { IfOk result (λ v. kind_of v ≡ kept_kind self.now) }
    {
        match self {
            Kept::Num(None) => Ok(Value::Num(0)),
            Kept::Num(Some(number)) => Ok(Value::Num(*number)),
            Kept::Text(None) => Ok(Value::Text(Text::from_vec(Vec::new(alloc)))),
            Kept::Text(Some(text)) => Ok(Value::Text(text.duplicate(alloc)?)),
        }
    }

    /// Writes its bytes behind others, or nothing.
    pub(crate) fn encode(&self, out: &mut Vec<u8>) -> Result<(), NoMemory>
        ensures bytes { OnOk result (out.new.items ≡ out.old.items ++ extreme_bytes (kept_value self.now)) }
        ensures whole { OnOk result (IfSome (kept_value self.now) (IsOfKind (kept_kind self.now))) }
        ensures same { OnErr result (out.new.items ≡ out.old.items) }
    {
        match self {
            Kept::Num(Some(number)) => write_some(out, &number.to_le_bytes()),
            Kept::Text(Some(text)) => {
                let bytes = text.as_slice();
                write_some(out, bytes)
            }
            _ => write_none(out),
        }
    }

    /// What is kept of values of this kind and has these bytes.
    pub(crate) fn decode(alloc: Global, kind: Kind, bytes: &[u8]) -> Result<Kept, StateFault>
        ensures bytes { IfOk result (λ k. extreme_bytes (kept_value k) ≡ bytes.now) }
        ensures whole { IfOk result (λ k. IfSome (kept_value k) (IsOfKind kind)) }
        ensures kind { IfOk result (λ k. kept_kind k ≡ kind) }
        ensures damaged { result ≡ Err StateFault.Damaged → (found : Option Value)
            → IfSome found (IsOfKind kind) → extreme_bytes found ≡ bytes.now → ⊥ }
    {
        match bytes {
            [0] => Ok(Kept::none(kind)),
            [1, rest @ ..] => Kept::decode_one(alloc, kind, rest),
            _ => Err(StateFault::Damaged),
        }
    }

    /// The value of this kind that has these bytes.
    fn decode_one(alloc: Global, kind: Kind, bytes: &[u8]) -> Result<Kept, StateFault>
        ensures bytes { IfOk result (λ k. extreme_bytes (kept_value k) ≡ 1 ∷ bytes.now) }
        ensures whole { IfOk result (λ k. IfSome (kept_value k) (IsOfKind kind)) }
        ensures kind { IfOk result (λ k. kept_kind k ≡ kind) }
        ensures damaged { result ≡ Err StateFault.Damaged → (found : Option Value)
            → IfSome found (IsOfKind kind) → extreme_bytes found ≡ 1 ∷ bytes.now → ⊥ }
    {
        match kind {
            Kind::Num => match number_alone(bytes) {
                Some(number) => Ok(Kept::Num(Some(number))),
                None => Err(StateFault::Damaged),
            },
            Kind::Text => Ok(Kept::Text(Some(Text::new(alloc, bytes)?))),
        }
    }
}

/// Whether one value is to be kept in place of another.
fn is_nearer(cell: Cell<'_>, held: Cell<'_>, end: End) -> bool
    ensures { chosen end (value_of held.entry) (value_of cell.entry)
        ≡ (if result then value_of cell.entry else value_of held.entry) }
{
    match end {
        End::Least => cell_cmp(cell, held).is_lt(),
        End::Greatest => cell_cmp(held, cell).is_lt(),
    }
}

/// The number that is kept of one more.
fn nearer_number(held: Option<u64>, number: u64, end: End) -> u64
    ensures { Some (values.Num result)
        ≡ with_value (chosen end) (kept_value (Kept.Num held)) (values.Num number) }
{
    match held {
        Some(least) if !is_nearer(Cell::Num(number), Cell::Num(least), end) => least,
        _ => number,
    }
}

/// Keeps a text, or what is nearer.
fn keep_text(held: &mut Option<Text>, alloc: Global, text: &Text, end: End) -> Result<(), NoMemory>
    ensures kept { OnOk result (kept_value (Kept.Text held.new)
        ≡ with_value (chosen end) (kept_value (Kept.Text held.old)) (values.Text text.now)) }
    ensures same { OnErr result (held.new ≡ held.old) }
{
    if is_text_kept(held, text, end) {
        return Ok(());
    }
    match text.duplicate(alloc) {
        Ok(copy) => {
            *held = Some(copy);
            Ok(())
        }
        Err(e) => Err(e),
    }
}

/// Whether what is held is kept beside this text.
fn is_text_kept(held: &Option<Text>, text: &Text, end: End) -> bool
    ensures { with_value (chosen end) (kept_value (Kept.Text held.now)) (values.Text text.now)
        ≡ (if result then kept_value (Kept.Text held.now) else Some (values.Text text.now)) }
{
    match held {
        Some(least) => !is_nearer(Cell::Text(text), Cell::Text(least), end),
        None => false,
    }
}

/// Writes that there is no value.
fn write_none(out: &mut Vec<u8>) -> Result<(), NoMemory>
    ensures bytes { OnOk result (out.new.items ≡ out.old.items ++ 0 ∷ []) }
    ensures same { OnErr result (out.new.items ≡ out.old.items) }
{
    out.push(0)?;
    Ok(())
}

/// Writes that there is a value, and its bytes, or nothing.
fn write_some(out: &mut Vec<u8>, bytes: &[u8]) -> Result<(), NoMemory>
    ensures bytes { OnOk result (out.new.items ≡ out.old.items ++ 1 ∷ bytes.now) }
    ensures same { OnErr result (out.new.items ≡ out.old.items) }
{
    let len = out.len();
    let written = write_one_and_bytes(out, bytes);
    if written.is_err() {
        out.truncate(len);
    }
    written
}

/// Writes that there is a value, and its bytes. A call that fails may have written a part of it.
fn write_one_and_bytes(out: &mut Vec<u8>, bytes: &[u8]) -> Result<(), NoMemory>
    ensures bytes { OnOk result (out.new.items ≡ out.old.items ++ 1 ∷ bytes.now) }
    ensures kept { take (length out.old.items) out.new.items ≡ out.old.items }
{
    out.push(1)?;
    out.extend_from_slice(bytes)?;
    Ok(())
}
