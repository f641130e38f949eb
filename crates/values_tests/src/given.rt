//! Rows that tests are given.
ghost use Rattle.std.specs.Prelude.{◌≡◌};

use pj_value::{Rows, Text, Value};
use std::alloc::Global;
use std::test::Fail;

/// One more row of a number and a text.
pub(crate) fn push_row(
    alloc: Global,
    rows: &mut Rows,
    number: u64,
    bytes: &[u8],
) -> Result<(), Fail>
    ensures { rows.new.kinds ≡ rows.old.kinds }
{
    let text = Text::new(alloc, bytes)?;
    rows.push(&[Value::Num(number), Value::Text(text)])?;
    Ok(())
}
