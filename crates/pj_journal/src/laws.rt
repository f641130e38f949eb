//! Laws over the definitions of this crate. Each function does nothing: its clause is the law.
ghost use Rattle.pj_journal.specs.Parts.{PartsHoldTheRows, PartsAreOfBlocks};

/// The living rows of a table's parts, one part behind the other, are its rows.
pub fn parts_hold_the_rows()
    ensures { PartsHoldTheRows }
{}

/// Each block of a table is in one part.
pub fn parts_are_of_blocks()
    ensures { PartsAreOfBlocks }
{}
