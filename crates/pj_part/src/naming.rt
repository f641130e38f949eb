//! The names of parts.
ghost use Rattle.std.specs.Prelude.{◌≡◌, ◌++◌, IfOk, OnOk};
ghost use Rattle.pj_part.specs.Names.{name_text, name_end};

use crate::part::Part;
use itoa::Buffer;
use pj_value::{NoMemory, Text};
use std::alloc::Global;

/// The name of a part, as `all_1_3_1`: its blocks from the first to the last, and its level. Where the part had
/// a mutation, the number of the last one stands behind these.
///
/// It takes time and memory for a text of at most 87 bytes, and fails only where it is out of memory.
pub fn part_name<B>(alloc: Global, part: &Part<B>) -> Result<Text, NoMemory>
    ensures { IfOk result
        (λ name. name ≡ name_text part.now.min part.now.max part.now.level part.now.field) }
{
    let mut name = Vec::from_slice(alloc, b"all")?;
    push_end(&mut name, part.min)?;
    push_end(&mut name, part.max)?;
    push_end(&mut name, part.level)?;
    if part.field > 0 {
        push_end(&mut name, part.field)?;
    }
    Text::new(alloc, name.as_slice())
}

/// One more number of a name.
fn push_end(name: &mut Vec<u8>, number: u64) -> Result<(), NoMemory>
    ensures { OnOk result (name.new.items ≡ name.old.items ++ name_end number) }
{
    let mut buffer = Buffer::new();
    name.push(b'_')?;
    name.extend_from_slice(buffer.format(number).as_bytes())?;
    Ok(())
}
