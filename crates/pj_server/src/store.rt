//! What the server holds of a table beside its definition: its parts.
ghost use Rattle.std.specs.Prelude.{◌≡◌, ◌<◌, ◌+◌, ◌^◌, slice_index_or, Some};
ghost use Rattle.std.specs.Prelude.{slice_set, vec_len, IfOk, OnOk, OnErr};
ghost use Rattle.pj_part.specs.declared.part.Sorted.{Sorted};
ghost use Rattle.pj_server.specs.Store.{IsInserted, IsAppended, IsSame};

use pj_part::{Part, PartDraft, Piece, PieceId, Sorted};
use pj_value::{List, NoMemory};
use std::alloc::Global;
use std::sync::Arc;

/// The parts of a table, in the order in which they became live, and the number that the table draws next.
#[derive(Debug, Drop)]
pub(crate) struct Store<B> {
    pub(crate) parts: Vec<Part<B>>,
    pub(crate) next: u64,
}

/// The part of this number that an INSERT makes of its draft and its block.
pub(crate) fn inserted_part<B: Drop>(
    alloc: Global,
    draft: PartDraft<B>,
    number: u64,
    block: u64,
) -> Result<Part<B>, NoMemory>
    requires { (own : Sorted B) × (draft.base ≡ Some own) }
    ensures { IfOk result (IsInserted draft number block) }
{
    let sorted: Sorted<B> = draft.base.unwrap();
    let piece = Piece {
        home: number,
        id: PieceId::Base,
        sorted,
    };
    Ok(Part {
        number,
        min: block,
        max: block,
        level: 0,
        field: 0,
        base: Arc::new(alloc, piece)?,
        mask: None,
        sides: List::from_vec(Vec::new(alloc)),
    })
}

/// Puts a part behind those of a store, whose next number then is one more. Takes the same time whatever the
/// number of parts.
pub(crate) fn append<B: Drop>(
    stores: &mut Vec<Store<B>>,
    table: usize,
    part: Part<B>,
) -> Result<(), NoMemory>
    requires there { table < vec_len stores.old }
    requires number { (d : _) → (slice_index_or stores.old.items table d).next + 1 < 2 ^ 64 }
    ensures done { OnOk result
        ((d : _)
        → IsAppended part (slice_index_or stores.old.items table d) (slice_index_or stores.new.items table d)
        × (stores.new.items ≡ slice_set stores.old.items table (slice_index_or stores.new.items table d))) }
    ensures same { OnErr result
        ((d : _)
        → IsSame (slice_index_or stores.old.items table d) (slice_index_or stores.new.items table d)
        × (stores.new.items ≡ slice_set stores.old.items table (slice_index_or stores.new.items table d))) }
{
    let store = &mut stores[table];
    store.parts.push(part)?;
    store.next += 1;
    Ok(())
}
