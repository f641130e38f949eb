//! The range of keys that a filter allows.
ghost use Rattle.std.specs.Prelude.{◌≡◌, ◌++◌, IfOk};
ghost use Rattle.std.specs.Option.{option_map};
ghost use Rattle.pj_value.specs.Values.{value_of};
ghost use Rattle.pj_match.specs.Ranges.{IsRangeOf, as_list};

use crate::bounds::chosen;
use crate::sides::Side;
use pj_expr::{Cond, Expr};
use pj_index::KeyRange;
use pj_value::{Cell, List, NoMemory, Value};
use std::alloc::Global;

/// The range of the keys of rows that hold a filter, as far as the conjuncts that compare a component of the key
/// with a literal tell it. The filter is walked once for each component that it fixes and three times for the
/// next one. Memory is taken for the literals of the range alone, which are copied.
pub fn range_of(alloc: Global, filter: &Cond, key: &[Expr]) -> Result<KeyRange, NoMemory>
    ensures { IfOk result (IsRangeOf filter.now key.now) }
{
    let mut low = Vec::new(alloc);
    let mut high = Vec::new(alloc);
    'components: for component in key {
        match chosen(Side::Both, filter, component) {
            Some(value) => {
                low.push(value.to_value(alloc)?)?;
                high.push(value.to_value(alloc)?)?;
            }
            None => {
                let low = ended(alloc, low, chosen(Side::Low, filter, component))?;
                let high = ended(alloc, high, chosen(Side::High, filter, component))?;
                return Ok(KeyRange { low, high });
            }
        }
    }
    Ok(KeyRange {
        low: List::from_vec(low),
        high: List::from_vec(high),
    })
}

/// A bound of a range with its last value, where it has one more.
fn ended(alloc: Global, values: Vec<Value>, last: Option<Cell<'_>>) -> Result<List<Value>, NoMemory>
    ensures { IfOk result (λ bound. bound ≡ values.items ++ as_list (option_map value_of last.entry)) }
{
    let mut values = values;
    if let Some(value) = last {
        values.push(value.to_value(alloc)?)?;
    }
    Ok(List::from_vec(values))
}
