//! Laws over the definitions of this crate. Each function does nothing: its clause is the law.
ghost use Rattle.pj_bind.specs.Laws.{EachIsFirst, OneRefusal, OneBound, NoBoundIsRefused};
ghost use Rattle.pj_bind.specs.Laws.{BoundOrRefused, BoundQueriesFit, BoundTablesFit};

/// Where no two tables have one name, each is the first of its name.
pub fn each_is_first()
    ensures { EachIsFirst }
{}

/// A statement is refused in one way at most.
pub fn one_refusal()
    ensures { OneRefusal }
{}

/// A statement binds in one way at most.
pub fn one_bound()
    ensures { OneBound }
{}

/// A statement of a built form that binds isn't refused.
pub fn no_bound_is_refused()
    ensures { NoBoundIsRefused }
{}

/// Each statement has a built form and binds, or is refused.
pub fn bound_or_refused()
    ensures { BoundOrRefused }
{}

/// The query that a SELECT binds to fits the kinds of its table's columns, so that it has answers.
pub fn bound_queries_fit()
    ensures { BoundQueriesFit }
{}

/// The table that a CREATE of the grammar binds to may be made: its key isn't empty and is of its columns,
/// and its granules have a size.
pub fn bound_tables_fit()
    ensures { BoundTablesFit }
{}
