//! A list of parts that is shared by reference. What is shared isn't copied before it is changed.
ghost use Rattle.std.specs.Prelude.{◌≡◌, [], ◌++◌, map, IfOk, OnOk, OnErr};
ghost use Rattle.std.specs.Arc.{arc_value};

use pj_part::Part;
use pj_value::NoMemory;
use std::alloc::Global;
use std::marker::Model;
use std::sync::Arc;

/// Parts, as others may hold them too. Contracts see the parts themselves.
#[derive(Drop)]
pub(crate) struct PartList<B> {
    /// None where no part was ever added, so that an empty list takes no memory.
    shared: Option<Arc<Vec<Arc<Part<B>>>>>,
}

impl<B> Model for PartList<B> {
    ghost use Rattle.std.specs.Prelude.{List};
    ghost use Rattle.pj_part.specs.declared.part.Part.{Part};

    ghost Value = { List (Part B) };

    ghost use Rattle.pj_partset.specs.Layout.{parts_in};

    ghost view = { λ l. parts_in l.shared };
}

impl<B> PartList<B> {
    /// No parts. Takes no memory.
    pub(crate) fn new() -> PartList<B>
        ensures { result ≡ [] }
    {
        PartList { shared: None }
    }

    /// The parts, lent.
    pub(crate) fn as_slice(&self) -> &[Arc<Part<B>>]
        ensures { map arc_value result.now ≡ self.now }
    {
        match &self.shared {
            Some(parts) => parts.as_slice(),
            None => &[],
        }
    }

    /// The same list, which is then shared. Copies nothing.
    pub(crate) fn share(&self) -> Result<PartList<B>, NoMemory>
        ensures { IfOk result (λ list. list ≡ self.now) }
    {
        let shared = match &self.shared {
            Some(parts) => Some(Arc::try_clone(parts)?),
            None => None,
        };
        Ok(PartList { shared })
    }
}

impl<B: Drop> PartList<B> {
    /// Adds parts behind the others. Takes amortised constant time for each of them where nobody else has the
    /// list, and else copies it, part by reference.
    pub(crate) fn append(&mut self, alloc: Global, fresh: Vec<Arc<Part<B>>>) -> Result<(), NoMemory>
        ensures done { OnOk result (self.new ≡ self.old ++ map arc_value fresh.items) }
        ensures same { OnErr result (self.new ≡ self.old) }
    {
        match &mut self.shared {
            Some(parts) => append_to(alloc, parts, fresh),
            None => {
                self.shared = Some(Arc::new(alloc, fresh)?);
                Ok(())
            }
        }
    }
}

/// Adds parts to a list that others may hold. What they hold stays.
fn append_to<B: Drop>(
    alloc: Global,
    parts: &mut Arc<Vec<Arc<Part<B>>>>,
    mut fresh: Vec<Arc<Part<B>>>,
) -> Result<(), NoMemory>
    ensures done { OnOk result
        (map arc_value (arc_value parts.new).items
        ≡ map arc_value (arc_value parts.old).items ++ map arc_value fresh.items) }
    ensures same { OnErr result
        (map arc_value (arc_value parts.new).items ≡ map arc_value (arc_value parts.old).items) }
{
    if let Some(alone) = Arc::get_mut(parts) {
        alone.append(&mut fresh)?;
        return Ok(());
    }
    let mut copy = copied(alloc, parts.as_slice())?;
    copy.append(&mut fresh)?;
    *parts = Arc::new(alloc, copy)?;
    Ok(())
}

/// The same parts in another list.
fn copied<B: Drop>(alloc: Global, parts: &[Arc<Part<B>>]) -> Result<Vec<Arc<Part<B>>>, NoMemory>
    ensures { IfOk result (λ copy. map arc_value copy.items ≡ map arc_value parts.now) }
{
    let mut copy = Vec::with_capacity(alloc, parts.len())?;
    'parts: for part in parts {
        copy.push(Arc::try_clone(part)?)?;
    }
    Ok(copy)
}
