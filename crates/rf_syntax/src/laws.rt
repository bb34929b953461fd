//! What a reader of token kinds can rely on, each law as the contract of a function that does
//! nothing.

ghost use Rattle.rf_syntax.specs.Laws.{StatementBegins, StatementEndsOnce, StatementsAreApart};

/// The spelling of a statement isn't empty, and its first kind follows from its form.
pub fn statement_begins_law()
    ensures { StatementBegins }
{}

/// The spelling of a statement goes as far as the first kind in it that ends a statement.
pub fn statement_ends_law()
    ensures { StatementEndsOnce }
{}

/// The spelling of a list of statements says which kinds each of them has.
pub fn statements_apart_law()
    ensures { StatementsAreApart }
{}
