//! Laws of the granules that an index selects. Each is the contract of a function that does nothing.
ghost use Rattle.pj_index.specs.Laws.{NoKeyIsLeftOut};

/// A granule with a key that is in the range is selected.
pub fn no_key_is_left_out()
    ensures { NoKeyIsLeftOut }
{}
