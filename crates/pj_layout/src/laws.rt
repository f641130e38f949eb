//! Laws of granules, of damage and of marks. Each is the contract of a function that does nothing.
ghost use Rattle.pj_layout.specs.GranuleLaws.{DamageIsExact, GranulesTellTheirValues};
ghost use Rattle.pj_layout.specs.GranuleLaws.{ChunksAreTheColumn, GranulesStandAtTheirMarks};

/// Bytes are damaged at no offset exactly where they are a granule.
pub fn damage_is_exact()
    ensures { DamageIsExact }
{}

/// The bytes of a granule are those of one column, and of no other.
pub fn granules_tell_their_values()
    ensures { GranulesTellTheirValues }
{}

/// The chunks of a column have its values, in order.
pub fn chunks_are_the_column()
    ensures { ChunksAreTheColumn }
{}

/// Each granule of a blob stands at its mark.
pub fn granules_stand_at_their_marks()
    ensures { GranulesStandAtTheirMarks }
{}
