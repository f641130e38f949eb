//! A column: values of one kind. Numbers and texts lie in vectors of their own,
//! so that a number takes eight bytes.
ghost use Rattle.std.specs.Prelude.{◌≡◌, ◌≢◌, ◌<◌, ◌++◌, ◌∷◌, [], ◌↔◌, length, map, take, slice_index_or};
ghost use Rattle.std.specs.Prelude.{IfOk, MatchOption, OnOk, OnErr};
ghost use Rattle.std.specs.List.{All, AllByRecursion};
ghost use Rattle.pj_value.specs.NumberBytes.{AreBytes};
ghost use Rattle.pj_value.specs.Values.{kind_of, value_of, Fits};
ghost use Rattle.pj_value.specs.Columns.{no_values, column_of_numbers, column_of_texts, values_at, AreOfKind};
ghost use Rattle.pj_value.specs.declared.value.Value.TheVariants as values;

use crate::memory::{NoMemory, PushFault};
use crate::text::Text;
use crate::value::{Cell, Kind, Value};
use std::alloc::Global;
use std::marker::Model;

/// The values, by their kind.
#[derive(Debug, Drop)]
enum Items {
    Num(Vec<u64>),
    Text(Vec<Text>),
}

/// Values of one kind, which contracts see as the kind and the list of the values.
#[derive(Debug, Drop)]
pub struct Column {
    items: Items,
}

impl Model for Column {
    ghost use Rattle.pj_value.specs.Columns.{KindedValues};

    ghost Value = { KindedValues };

    ghost use Rattle.pj_value.specs.Layout.{kinded_values, HasBytes};

    ghost view = { λ c. kinded_values c.items };

    ghost invariant = { λ c. HasBytes c.items };
}

impl Column {
    /// No values, of this kind. Takes no memory.
    pub fn new(alloc: Global, kind: Kind) -> Column
        ensures { result ≡ no_values kind }
    {
        let items = match kind {
            Kind::Num => Items::Num(Vec::new(alloc)),
            Kind::Text => Items::Text(Vec::new(alloc)),
        };
        Column { items }
    }

    /// The kind of the values. A caller learns here that each is of this kind, and fits.
    pub fn kind(&self) -> Kind
        ensures kind { result ≡ self.now.kind }
        ensures of_kind { AreOfKind self.now.kind self.now.values }
        ensures fits { AllByRecursion Fits self.now.values }
    {
        match &self.items {
            Items::Num(numbers) => {
                numbers_fit(numbers.as_slice());
                Kind::Num
            }
            Items::Text(_) => Kind::Text,
        }
    }

    /// How many values there are.
    pub fn len(&self) -> usize
        ensures { result ≡ length self.now.values }
    {
        match &self.items {
            Items::Num(numbers) => numbers.len(),
            Items::Text(texts) => texts.len(),
        }
    }

    /// Adds a value behind the others, in amortised constant time.
    pub fn push(&mut self, value: Value) -> Result<(), PushFault>
        ensures added { OnOk result (self.new ≡ record self.old { values = self.old.values ++ value ∷ [] }) }
        ensures shape { (result ≡ Err PushFault.WrongShape) ↔ (kind_of value ≡ self.old.kind → ⊥) }
        ensures same { OnErr result (self.new ≡ self.old) }
    {
        match (&mut self.items, value) {
            (Items::Num(numbers), Value::Num(number)) => Ok(numbers.push(number)?),
            (Items::Text(texts), Value::Text(text)) => push_text(texts, text),
            _ => Err(PushFault::WrongShape),
        }
    }

    /// The value at this index, lent.
    pub fn cell(&self, at: usize) -> Cell<'_>
        requires { at < length self.now.values }
        ensures { value_of result ≡ slice_index_or self.now.values at (values.Num 0) }
    {
        match &self.items {
            Items::Num(numbers) => Cell::Num(numbers[at]),
            Items::Text(texts) => Cell::Text(&texts[at]),
        }
    }

    /// The value at this index, lent, and the number 0 where there is none.
    pub fn cell_or_zero(&self, at: usize) -> Cell<'_>
        ensures { value_of result ≡ slice_index_or self.now.values at (values.Num 0) }
    {
        match &self.items {
            Items::Num(numbers) => match numbers.get(at) {
                Some(number) => Cell::Num(*number),
                None => Cell::Num(0),
            },
            Items::Text(texts) => match texts.get(at) {
                Some(text) => Cell::Text(text),
                None => Cell::Num(0),
            },
        }
    }

    /// The values at these indexes, in this order, in memory of their own.
    pub fn gather(&self, alloc: Global, indexes: &[usize]) -> Result<Column, NoMemory>
        requires { All (λ at. at < length self.now.values) indexes.now }
        ensures { IfOk result (λ c. c ≡ record self.now { values = values_at self.now.values indexes.now }) }
    {
        let items = match &self.items {
            Items::Num(numbers) => Items::Num(numbers_at(numbers.as_slice(), indexes, alloc)?),
            Items::Text(texts) => Items::Text(texts_at(texts.as_slice(), indexes, alloc)?),
        };
        Ok(Column { items })
    }

    /// The same values of the same kind, in memory of their own.
    pub fn duplicate(&self, alloc: Global) -> Result<Column, NoMemory>
        ensures { IfOk result (λ c. c ≡ self.now) }
    {
        let items = match &self.items {
            Items::Num(numbers) => Items::Num(Vec::from_slice(alloc, numbers.as_slice())?),
            Items::Text(texts) => {
                let mut copies = Vec::new(alloc);
                push_copies(&mut copies, texts.as_slice(), alloc)?;
                Items::Text(copies)
            }
        };
        Ok(Column { items })
    }

    /// Adds the values of another column of this kind behind the others, in time linear in these alone.
    pub fn append(&mut self, more: &Column, alloc: Global) -> Result<(), NoMemory>
        requires { more.now.kind ≡ self.old.kind }
        ensures added { OnOk result
            (self.new ≡ record self.old { values = self.old.values ++ more.now.values }) }
        ensures same { OnErr result (self.new ≡ self.old) }
    {
        match (&mut self.items, &more.items) {
            (Items::Num(held), Items::Num(added)) => Ok(held.extend_from_slice(added)?),
            (Items::Text(held), Items::Text(added)) => append_texts(held, added, alloc),
            _ => unreachable!(),
        }
    }

    /// Drops the values from this index on.
    pub(crate) fn truncate(&mut self, len: usize)
        ensures { self.new ≡ record self.old { values = take len self.old.values } }
    {
        match &mut self.items {
            Items::Num(numbers) => numbers.truncate(len),
            Items::Text(texts) => texts.truncate(len),
        }
    }
}

impl Column {
    /// A column of these numbers, which are moved. Takes no memory.
    pub fn from_numbers(numbers: Vec<u64>) -> Column
        ensures { result ≡ column_of_numbers numbers.items }
    {
        Column {
            items: Items::Num(numbers),
        }
    }

    /// A column of these texts, which are moved. Takes no memory.
    pub fn from_texts(texts: Vec<Text>) -> Column
        ensures { result ≡ column_of_texts texts.items }
    {
        texts_fit(texts.as_slice());
        Column {
            items: Items::Text(texts),
        }
    }

    /// The numbers, lent, where the values are numbers.
    pub fn numbers(&self) -> Option<&[u64]>
        ensures { MatchOption result (self.now.kind ≡ Kind.Text) (λ ns. self.now ≡ column_of_numbers ns.now) }
    {
        match &self.items {
            Items::Num(numbers) => Some(numbers.as_slice()),
            Items::Text(_) => None,
        }
    }

    /// The texts, lent, where the values are texts.
    pub fn texts(&self) -> Option<&[Text]>
        ensures { MatchOption result (self.now.kind ≡ Kind.Num) (λ ts. self.now ≡ column_of_texts ts.now) }
    {
        match &self.items {
            Items::Num(_) => None,
            Items::Text(texts) => Some(texts.as_slice()),
        }
    }
}

/// Does nothing. A caller learns that the numbers are of 64 bits, which the prover knows of a
/// slice that is passed.
fn numbers_fit(numbers: &[u64])
    ensures { All (λ n. n < 18446744073709551616) numbers.now }
{}

/// Has no effect. A caller learns that the texts are of bytes.
fn texts_fit(texts: &[Text])
    ensures { All AreBytes texts.now }
{
    for text in texts {
        let _bytes = text.as_slice();
    }
}

/// Adds a text, which is of bytes, behind the others.
fn push_text(texts: &mut Vec<Text>, text: Text) -> Result<(), PushFault>
    ensures added { OnOk result (texts.new.items ≡ texts.old.items ++ text ∷ []) }
    ensures bytes { OnOk result (AreBytes text) }
    ensures shape { result ≢ Err PushFault.WrongShape }
    ensures same { OnErr result (texts.new.items ≡ texts.old.items) }
{
    let _bytes = text.as_slice();
    Ok(texts.push(text)?)
}

/// Adds copies of the texts behind the others, all or none.
fn append_texts(texts: &mut Vec<Text>, more: &[Text], alloc: Global) -> Result<(), NoMemory>
    ensures added { OnOk result (texts.new.items ≡ texts.old.items ++ more.now) }
    ensures same { OnErr result (texts.new.items ≡ texts.old.items) }
{
    let len = texts.len();
    let added = push_copies(texts, more, alloc);
    if added.is_err() {
        texts.truncate(len);
    }
    added
}

/// Adds copies of the texts behind the others. After an error some may have been added.
fn push_copies(texts: &mut Vec<Text>, more: &[Text], alloc: Global) -> Result<(), NoMemory>
    ensures added { OnOk result (texts.new.items ≡ texts.old.items ++ more.now) }
    ensures kept { take (length texts.old.items) texts.new.items ≡ texts.old.items }
{
    for text in more {
        texts.push(text.duplicate(alloc)?)?;
    }
    Ok(())
}

/// The numbers at these indexes, in this order.
fn numbers_at(numbers: &[u64], indexes: &[usize], alloc: Global) -> Result<Vec<u64>, NoMemory>
    requires { All (λ at. at < length numbers.now) indexes.now }
    ensures { IfOk result (λ ns. ns.items ≡ map (λ at. slice_index_or numbers.now at 0) indexes.now) }
{
    let mut found = Vec::with_capacity(alloc, indexes.len())?;
    for at in indexes {
        found.push(numbers[*at])?;
    }
    Ok(found)
}

/// Copies of the texts at these indexes, in this order.
fn texts_at(texts: &[Text], indexes: &[usize], alloc: Global) -> Result<Vec<Text>, NoMemory>
    requires { All (λ at. at < length texts.now) indexes.now }
    ensures { IfOk result (λ ts. ts.items ≡ map (λ at. slice_index_or texts.now at []) indexes.now) }
{
    let mut found = Vec::with_capacity(alloc, indexes.len())?;
    for at in indexes {
        found.push(texts[*at].duplicate(alloc)?)?;
    }
    Ok(found)
}
