//! A part that isn't live yet, as it is built beside its source.
use crate::part::Sorted;
use pj_value::List;

/// What a draft does with the mask of its source.
#[derive(Debug, Drop)]
pub enum MaskChange<B> {
    /// The mask stays, or there is none.
    Same,
    /// There is no mask any more.
    Gone,
    /// This is the mask.
    New(Sorted<B>),
}

/// A copy that was built for a draft.
#[derive(Debug, Drop)]
pub struct NewSide<B> {
    /// The number of its projection.
    pub id: u64,
    /// Its rows.
    pub sorted: Sorted<B>,
}

/// A part that isn't live yet. What it doesn't have of its own it takes from its source.
///
/// A draft of an INSERT or a merge has no source: it has a base and no mask, and keeps nothing.
#[derive(Debug, Drop)]
pub struct PartDraft<B> {
    /// The base, or none where the source's stays.
    pub base: Option<Sorted<B>>,
    /// What becomes of the source's mask.
    pub mask: MaskChange<B>,
    /// The numbers of the projections whose copies stay.
    pub kept: List<u64>,
    /// The copies that were built for it.
    pub built: List<NewSide<B>>,
}
