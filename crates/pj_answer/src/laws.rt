//! Laws of queries. Each is a function that does nothing, and its clause is the law.
ghost use Rattle.pj_answer.specs.Laws.{AnswersIgnoreTheOrder, SameRowsAreEqual, DistinctRowsStandOnce};

/// Right answers of a query that fits don't depend on the order of the rows.
pub fn answers_ignore_the_order()
    ensures { AnswersIgnoreTheOrder }
{}

/// The test of rows says whether they are equal.
pub fn same_rows_are_equal()
    ensures { SameRowsAreEqual }
{}

/// The distinct rows of a list are its rows, once each.
pub fn distinct_rows_stand_once()
    ensures { DistinctRowsStandOnce }
{}
