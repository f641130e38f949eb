//! Parts: rows of a table that are kept in blobs, sorted and indexed together.
#![tactic(auto)]

mod draft;
mod laws;
mod naming;
mod part;

pub use draft::{MaskChange, NewSide, PartDraft};
pub use laws::{formed_columns_are_whole, indexes_of_keys_are_formed, written_columns_are_formed};
pub use naming::part_name;
pub use part::{ColumnFile, Part, Piece, PieceId, Sorted, has_side};
