use crate::{Name, SymbolName};
use rf_text::Items;

/// How the statement of a predicate begins.
#[derive(Clone, Copy, Debug, PartialEq, Eq)]
pub enum PredicateWord {
    /// `pred`
    Pred,
    /// `error`
    Error,
    /// `error pred`, which means the same as `error`.
    ErrorPred,
}

/// A parameter of a predicate.
#[derive(Debug, Drop)]
pub struct Param {
    pub class: Option<Name>,
    pub name: Name,
}

/// A literal in the body of a predicate.
#[derive(Debug, Drop)]
pub enum BodyLiteral {
    Call {
        /// Whether it begins with a `!`.
        negated: bool,
        symbol: SymbolName,
        /// Whether a `+` follows the symbol.
        closure: bool,
        args: Items<Name>,
    },
    /// `==`
    Same(Name, Name),
    /// `!=`
    Differ(Name, Name),
}
