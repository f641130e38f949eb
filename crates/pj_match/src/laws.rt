//! Laws of the ranges of filters. Each is the contract of a function that does nothing.
ghost use Rattle.pj_match.specs.Laws.{RowsThatHoldAreWithin};

/// A row that holds a filter has its key in the filter's range: whoever reads the rows with keys in the range
/// alone misses no row of the filter.
pub fn rows_that_hold_are_within()
    ensures { RowsThatHoldAreWithin }
{}
