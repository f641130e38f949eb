//! What a part is: pieces, each a sorted list of rows by columns, and each column in a blob.
ghost use Rattle.std.specs.Prelude.{◌≡◌, ◌↔◌, IsTrue};
ghost use Rattle.pj_part.specs.Laid.{HasSide};

use pj_index::KeyMarks;
use pj_layout::Mark;
use pj_value::{Kind, List};
use std::sync::Arc;

/// A column of sorted rows: the blob that holds its granules, side by side, and where each of these stands.
#[derive(Debug, Drop)]
pub struct ColumnFile<B> {
    /// The granules, in the order of their rows.
    pub blob: B,
    /// The kind of the values.
    pub kind: Kind,
    /// Where each granule stands in the blob, in the same order.
    pub marks: List<Mark>,
}

/// Sorted rows, a column a blob. All columns have the same granules.
#[derive(Debug, Drop)]
pub struct Sorted<B> {
    /// How many rows there are.
    pub rows: u64,
    /// The first key of each granule, and the last key of all. Those of a mask are empty.
    pub index: KeyMarks,
    /// Of a base, in the order of the table's columns.
    pub columns: List<ColumnFile<B>>,
}

/// Which piece of a part.
#[derive(Clone, Copy, Debug, PartialEq, Eq)]
pub enum PieceId {
    /// The rows of the table, sorted by its key, masked rows among them.
    Base,
    /// One column of numbers, one for each row of the base: 1 where the row is living, 0 where it is masked.
    Mask,
    /// The copy of the projection with this number.
    Side(u64),
}

/// Sorted rows that are written and dropped as one. Parts share pieces that a mutation leaves.
#[derive(Debug, Drop)]
pub struct Piece<B> {
    /// The number of the part that the piece was made for.
    pub home: u64,
    /// Which piece of that part it is.
    pub id: PieceId,
    /// Its rows.
    pub sorted: Sorted<B>,
}

/// A part of a table: rows of the blocks from `min` to `max`.
#[derive(Debug, Drop)]
pub struct Part<B> {
    /// The part's own number in its table, from 1.
    pub number: u64,
    /// The number of its first block.
    pub min: u64,
    /// The number of its last block.
    pub max: u64,
    /// One more than the greatest level of the parts that it was merged from, or 0.
    pub level: u64,
    /// The number of the last mutation that the part had, or 0.
    pub field: u64,
    /// The rows of its blocks, masked ones too.
    pub base: Arc<Piece<B>>,
    /// Which rows are masked. Where blobs are told, a part that agrees with its record has a mask exactly where a
    /// row is masked.
    pub mask: Option<Arc<Piece<B>>>,
    /// The copies, in no order that is claimed. Those of a part that is formed are of different projections.
    pub sides: List<Arc<Piece<B>>>,
}

/// Whether the part has a copy of the projection with this number. Takes no memory, and time linear in the number
/// of copies.
pub fn has_side<B>(part: &Part<B>, id: u64) -> bool
    ensures { IsTrue result ↔ HasSide part.now id }
{
    let sides = part.sides.as_slice();
    sides.iter().any(|side| side.id == PieceId::Side(id))
}
