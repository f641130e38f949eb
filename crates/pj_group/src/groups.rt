//! Groups of rows, which stand for all rows that were added to them.
ghost use Rattle.std.specs.Prelude.{◌≡◌, ◌+◌, ◌++◌, List, [], Some, IfOk, IsTrue};
ghost use Rattle.pj_value.specs.declared.value.Kind.{Kind};
ghost use Rattle.pj_expr.specs.Fits.{FitsQuery};
ghost use Rattle.pj_answer.specs.Answers.{Row, Answers};
ghost use Rattle.pj_group.specs.Standing.{StandsFor};
ghost use Rattle.pj_group.specs.declared.forms.Form.TheVariants.{Each};

use crate::dense::kept_rows;
use crate::forms::{Form, form_of, len_of_none, limit_of, numbers_of};
use crate::held::{add_to_all, all_finished, items_of, new_slots, order_columns};
use crate::least::room;
use crate::lines::{arranged, first_lines, rows_of_columns};
use crate::slots::{Slot, columns_at};
use pj_expr::Query;
use pj_value::{Kind, NoMemory, Rows};
use std::alloc::Global;

/// Groups of rows, which stand for all rows that were added to them.
///
/// For each group they hold its key and, for each item and order key of the query, its value for the group's
/// first row or the state of its call. Of a query that doesn't aggregate each row is a group, and with LIMIT
/// those alone are held for long that can still be among the first.
#[derive(Drop)]
pub struct Groups {
    form: Form,
    /// How many groups there are.
    len: usize,
    /// One for each item of the query, and then for each of its order keys.
    slots: Vec<Slot>,
    alloc: Global,
}

impl Groups {
    /// Groups that stand for no rows of these kinds.
    pub fn new(alloc: Global, query: &Query, kinds: &[Kind]) -> Result<Groups, NoMemory>
        requires { FitsQuery kinds.now query.now }
        ensures { IfOk result (StandsFor query.now kinds.now []) }
    {
        let form = form_of(alloc, query);
        let none = Rows::new(alloc, kinds)?;
        let items = items_of(alloc, query)?;
        let slots = new_slots(alloc, items.as_slice(), &none, &form)?;
        Ok(Groups {
            len: len_of_none(&form),
            form,
            slots,
            alloc,
        })
    }

    /// The same, with these rows behind the others, as far as the query's filter keeps them. It takes a pass over
    /// the rows for each operator and each call, and a look-up of each row's key. Only for a new group are
    /// values of its own copied.
    ///
    /// Where the query doesn't aggregate and has LIMIT k, rows that can't be among the first k are dropped: what
    /// stays held is no more than 2k rows, or 64. A cut takes time about linear in what is held then, and comes
    /// only when that is more. Without ORDER BY no row is looked at any more once k are held.
    pub fn add_rows(self, query: &Query, rows: &Rows) -> Result<Groups, NoMemory>
        requires fits { FitsQuery rows.now.kinds query.now }
        requires stands { (seen : List Row) × StandsFor query.now rows.now.kinds seen self }
        ensures { (seen : List Row) → StandsFor query.now rows.now.kinds seen self
            → IfOk result (StandsFor query.now rows.now.kinds (seen ++ rows.now.rows)) }
    {
        if self.is_full(query) {
            return Ok(self);
        }
        let groups = self.with_rows(query, rows)?;
        let groups = groups.cut(query)?;
        Ok(groups)
    }

    /// Whether no further row can be among the first: without ORDER BY, where as many are held as LIMIT says.
    fn is_full(&self, query: &Query) -> bool
        ensures { (kinds : List Kind) (seen more : List Row) → IsTrue result
            → StandsFor query.now kinds seen self.now → StandsFor query.now kinds (seen ++ more) self.now }
    {
        match limit_of(&self.form, query) {
            Some(most) => query.order.as_slice().is_empty() && most <= self.len as u64,
            None => false,
        }
    }

    /// The same, with these rows behind the others, none of which is dropped.
    fn with_rows(self, query: &Query, rows: &Rows) -> Result<Groups, NoMemory>
        requires fits { FitsQuery rows.now.kinds query.now }
        requires stands { (seen : List Row) × StandsFor query.now rows.now.kinds seen self }
        ensures { (seen : List Row) → StandsFor query.now rows.now.kinds seen self
            → IfOk result (StandsFor query.now rows.now.kinds (seen ++ rows.now.rows)) }
    {
        let Groups {
            mut form,
            len,
            mut slots,
            alloc,
        } = self;
        let kept = kept_rows(alloc, &query.filter, rows)?;
        let numbers = numbers_of(alloc, &mut form, query, rows, &kept)?;
        let len = total(len, numbers.openings.len())?;
        let items = items_of(alloc, query)?;
        add_to_all(
            alloc,
            &mut slots,
            items.as_slice(),
            rows,
            &kept,
            &numbers,
            len,
        )?;
        Ok(Groups {
            form,
            len,
            slots,
            alloc,
        })
    }

    /// The same, cut to the first rows where many more are held than LIMIT says.
    fn cut(self, query: &Query) -> Result<Groups, NoMemory>
        requires { (kinds : List Kind) × (seen : List Row) × FitsQuery kinds query.now
            × StandsFor query.now kinds seen self }
        ensures { (kinds : List Kind) (seen : List Row) → FitsQuery kinds query.now
            → StandsFor query.now kinds seen self → IfOk result (StandsFor query.now kinds seen) }
    {
        match limit_of(&self.form, query) {
            Some(most) if room(most) < self.len as u64 => self.first(query, most),
            _ => Ok(self),
        }
    }

    /// The same, cut to the first rows in the order of ORDER BY, as many as LIMIT says.
    fn first(self, query: &Query, most: u64) -> Result<Groups, NoMemory>
        requires each { self.form ≡ Each }
        requires limit { query.now.limit ≡ Some most }
        requires stands { (kinds : List Kind) × (seen : List Row) × FitsQuery kinds query.now
            × StandsFor query.now kinds seen self }
        ensures { (kinds : List Kind) (seen : List Row) → FitsQuery kinds query.now
            → StandsFor query.now kinds seen self → IfOk result (StandsFor query.now kinds seen) }
    {
        let Groups {
            form,
            len,
            slots,
            alloc,
        } = self;
        let columns = all_finished(alloc, slots)?;
        let orders = order_columns(query, columns.as_slice());
        let first = first_lines(alloc, query.order.as_slice(), orders, len, most)?;
        let slots = columns_at(alloc, columns, first.as_slice())?;
        Ok(Groups {
            form,
            len: first.len(),
            slots,
            alloc,
        })
    }

    /// The rows of a right answer of the query over all rows that were added.
    pub fn answer(self, query: &Query) -> Result<Rows, NoMemory>
        requires { (kinds : List Kind) × (seen : List Row) × FitsQuery kinds query.now
            × StandsFor query.now kinds seen self }
        ensures { (kinds : List Kind) (seen : List Row) → FitsQuery kinds query.now
            → StandsFor query.now kinds seen self
            → IfOk result (Answers query.now (record { kinds = kinds; rows = seen })) }
    {
        let Groups {
            form: _,
            len,
            slots,
            alloc,
        } = self;
        let mut outputs = all_finished(alloc, slots)?;
        let orders = outputs.split_off(query.items.as_slice().len())?;
        let lines = rows_of_columns(alloc, outputs, len)?;
        let out = arranged(
            alloc,
            lines,
            query.order.as_slice(),
            orders.as_slice(),
            query.limit,
        )?;
        Ok(out)
    }
}

/// So many groups and as many more. No memory holds more than a number can count.
fn total(len: usize, more: usize) -> Result<usize, NoMemory>
    ensures { IfOk result (λ n. n ≡ len + more) }
{
    match len.checked_add(more) {
        Some(len) => Ok(len),
        None => Err(NoMemory),
    }
}
