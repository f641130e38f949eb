//! Laws of the grammar. Each is a function that does nothing, and its clause is the law.
ghost use Rattle.pj_grammar.specs.Laws.{OneStatement, OneError, StatementOrError};

/// Lexemes are one statement at most.
pub fn one_statement()
    ensures { OneStatement }
{}

/// Lexemes have one index of an error at most.
pub fn one_error()
    ensures { OneError }
{}

/// Lexemes are a statement, or have an index of an error. They never have both, since an index of an error
/// says that they are no statement.
pub fn statement_or_error()
    ensures { StatementOrError }
{}
