//! Guesses where numbers stand among some that rise, so that most of them are found without a search.
use crate::item::Valued;
use pj_value::Cell;
use std::alloc::Global;

/// Fewer values are searched as quickly.
const LEAST: usize = 64;

/// For more values than these no guess is kept.
const MOST: usize = 1 << 26;

/// How many slots there are at least for each value.
const SLOTS_EACH: usize = 4;

/// For numbers an index each, where the number may stand. Any index is right: only time depends on it.
#[derive(Debug, Drop)]
pub(crate) struct Guesses {
    /// By the number's slot. There are none, or as many as a power of two says.
    indexes: Vec<u32>,
}

impl Guesses {
    /// No guesses. Takes no memory.
    pub(crate) fn none(alloc: Global) -> Guesses {
        Guesses {
            indexes: Vec::new(alloc),
        }
    }

    /// Where a value may stand.
    pub(crate) fn guess(&self, cell: Cell<'_>) -> Option<usize> {
        match cell {
            Cell::Num(number) => match self.indexes.get(slot_of(number, self.indexes.len())) {
                Some(index) => Some(*index as usize),
                None => None,
            },
            Cell::Text(_) => None,
        }
    }

    /// Guesses where these values stand, as far as there is memory for it.
    pub(crate) fn learn<T: Valued>(&mut self, items: &[T]) {
        self.indexes.clear();
        let len = items.len();
        if !(LEAST..=MOST).contains(&len) || !is_number(&items[0]) {
            return;
        }
        match self
            .indexes
            .resize((len * SLOTS_EACH).next_power_of_two(), 0)
        {
            Ok(()) => self.fill(items),
            Err(_) => self.indexes.clear(),
        }
    }

    /// Puts the index of each value into its slot.
    fn fill<T: Valued>(&mut self, items: &[T]) {
        let slots = self.indexes.len();
        let mut at: u32 = 0;
        'items: for item in items {
            if let Cell::Num(number) = item.as_cell() {
                if let Some(index) = self.indexes.get_mut(slot_of(number, slots)) {
                    *index = at;
                }
            }
            at = at.wrapping_add(1);
        }
    }
}

/// Whether a value is a number.
fn is_number<T: Valued>(item: &T) -> bool {
    matches!(item.as_cell(), Cell::Num(_))
}

/// The slot of a number, where there are so many, by bits of all of it.
fn slot_of(number: u64, slots: usize) -> usize {
    let mixed = number.wrapping_mul(0x9E37_79B9_7F4A_7C15) >> 32;
    mixed as usize & slots.saturating_sub(1)
}
