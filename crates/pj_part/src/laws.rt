//! Laws of how sorted rows lie in blobs. Each is the contract of a function that does nothing.
ghost use Rattle.pj_part.specs.Laws.{WrittenColumnsAreFormed, IndexesOfKeysAreFormed};
ghost use Rattle.pj_part.specs.Laws.{GranulesLieInTheirBlobs, GranulesHaveTheRows};

use pj_port::Kept;

/// A column that was written as granules and kept as one blob is formed, whether the blob tells its bytes or
/// not.
pub fn written_columns_are_formed<B: Kept>()
    ensures { WrittenColumnsAreFormed B.size }
{}

/// The index of keys that never fall is formed.
pub fn indexes_of_keys_are_formed()
    ensures { IndexesOfKeysAreFormed }
{}

/// The granules of a formed column lie in its blob, so that a port can read each of them, and they have all its
/// rows.
pub fn formed_columns_are_whole<B: Kept>()
    ensures within { GranulesLieInTheirBlobs B.size }
    ensures rows { GranulesHaveTheRows B.size }
{}
