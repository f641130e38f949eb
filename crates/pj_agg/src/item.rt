//! A number or a text as a value, so that what is kept of either kind is written once.
ghost use Rattle.std.specs.Prelude.{◌≡◌, ◌≤◌, ℕ, List, ◌++◌, length, take, refl, IfOk, MatchOption};
ghost use Rattle.pj_value.specs.declared.value.Kind.{Kind};
ghost use Rattle.pj_value.specs.declared.value.Kind.TheVariants as kinds;
ghost use Rattle.pj_value.specs.declared.value.Value.{Value};
ghost use Rattle.pj_value.specs.declared.value.Value.TheVariants as values;
ghost use Rattle.pj_value.specs.Values.{kind_of, value_of};
ghost use Rattle.pj_value.specs.Order.{value_cmp};
ghost use Rattle.pj_value.specs.Summaries.{IsOfKind, value_bytes};

use crate::bytes::number_at_front;
use pj_value::{Cell, NoMemory, Text, cell_cmp};
use std::alloc::Global;
use std::cmp::Ordering;

/// What stands for a value.
pub(crate) trait Valued: Sized + Drop {
    // The value.
    ghost value: { Self → Value };

    /// The value, lent.
    fn as_cell(&self) -> Cell<'_>
        ensures { value_of result ≡ value self.now };

    /// How the values stand to each other.
    fn compare(&self, other: &Self) -> Ordering
        ensures { result ≡ value_cmp (value self.now) (value other.now) };
}

/// A value of one kind.
pub(crate) trait Item: Valued {
    // The kind.
    ghost kind: { Kind };

    /// The same value in memory of its own.
    fn from_cell(alloc: Global, cell: Cell<'_>) -> Result<Self, NoMemory>
        requires { kind_of (value_of cell) ≡ kind }
        ensures { IfOk result (λ x. Self.value x ≡ value_of cell.entry) };

    /// How many bytes at the front are those of a value.
    fn len_at_front(bytes: &[u8]) -> Option<usize>
        ensures { MatchOption result
            ((v : Value) (rest : List ℕ) → IsOfKind kind v → value_bytes v ++ rest ≡ bytes.now → ⊥)
            (λ n. (n ≤ length bytes.now)
            × (v : Value) × IsOfKind kind v × (value_bytes v ≡ take n bytes.now)) };

    /// The value of these bytes.
    fn from_bytes(alloc: Global, bytes: &[u8]) -> Result<Self, NoMemory>
        requires { (v : Value) × IsOfKind kind v × (value_bytes v ≡ bytes.now) }
        ensures { IfOk result
            (λ x. IsOfKind kind (Self.value x) × (value_bytes (Self.value x) ≡ bytes.now)) };

    ghost of_kind: { (x : Self) → kind_of (Self.value x) ≡ kind };
}

impl Valued for u64 {
    ghost value = { λ n. values.Num n };

    fn as_cell(&self) -> Cell<'_> {
        Cell::Num(*self)
    }

    fn compare(&self, other: &Self) -> Ordering {
        self.cmp(other)
    }
}

impl Item for u64 {
    ghost kind = { kinds.Num };

    ghost of_kind = { λ n. refl };

    fn from_cell(_alloc: Global, cell: Cell<'_>) -> Result<Self, NoMemory> {
        match cell {
            Cell::Num(number) => Ok(number),
            Cell::Text(_) => unreachable!(),
        }
    }

    fn len_at_front(bytes: &[u8]) -> Option<usize> {
        match number_at_front(bytes) {
            Some(_) => Some(8),
            None => None,
        }
    }

    fn from_bytes(_alloc: Global, bytes: &[u8]) -> Result<Self, NoMemory> {
        match number_at_front(bytes) {
            Some(number) => Ok(number),
            None => unreachable!(),
        }
    }
}

impl Valued for Text {
    ghost value = { λ t. values.Text t };

    fn as_cell(&self) -> Cell<'_> {
        Cell::Text(self)
    }

    fn compare(&self, other: &Self) -> Ordering {
        self.as_slice().cmp(other.as_slice())
    }
}

impl Item for Text {
    ghost kind = { kinds.Text };

    ghost of_kind = { λ t. refl };

    fn from_cell(alloc: Global, cell: Cell<'_>) -> Result<Self, NoMemory> {
        match cell {
            Cell::Num(_) => unreachable!(),
            Cell::Text(text) => text.duplicate(alloc),
        }
    }

    fn len_at_front(bytes: &[u8]) -> Option<usize> {
        match number_at_front(bytes) {
            Some(len) if len <= (bytes.len() - 8) as u64 => Some(8 + len as usize),
            _ => None,
        }
    }

    fn from_bytes(alloc: Global, bytes: &[u8]) -> Result<Self, NoMemory> {
        Text::new(alloc, &bytes[8..])
    }
}

impl<'a> Valued for Cell<'a> {
    ghost value = { λ c. value_of c };

    fn as_cell(&self) -> Cell<'_> {
        *self
    }

    fn compare(&self, other: &Self) -> Ordering {
        cell_cmp(*self, *other)
    }
}
