//! Laws of queries over the columns that they use alone. Each is the contract of a function that does
//! nothing.
ghost use Rattle.pj_narrow.specs.Laws.{ColumnsAreThere, NarrowedQueriesFit, NarrowedQueriesAnswerAlike};
ghost use Rattle.pj_narrow.specs.Laws.{NarrowedItemsKeepTheirKinds};

/// The columns that a query uses are columns of the table.
pub fn columns_are_there()
    ensures { ColumnsAreThere }
{}

/// A query that is narrowed to the columns that it uses fits these, its items keep their kinds, and its answers over
/// them are answers of the query over all columns.
pub fn narrowed_queries_answer_alike()
    ensures fits { NarrowedQueriesFit }
    ensures kinds { NarrowedItemsKeepTheirKinds }
    ensures answers { NarrowedQueriesAnswerAlike }
{}
