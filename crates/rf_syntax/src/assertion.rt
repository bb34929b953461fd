use crate::SymbolName;
use rf_text::Items;

/// An argument of an assertion.
#[derive(Debug, Drop)]
pub enum Arg {
    /// `*`, any object.
    Star,
    Symbol(SymbolName),
}

/// A symbol and its arguments.
#[derive(Debug, Drop)]
pub struct AtomForm {
    pub symbol: SymbolName,
    pub args: Items<Arg>,
}

/// The word of a value.
#[derive(Clone, Copy, Debug, PartialEq, Eq)]
pub enum ValueWord {
    True,
    False,
    Unknown,
    Error,
}

/// An assertion, by the way in which its value is written.
#[derive(Debug, Drop)]
pub enum AssertionForm {
    /// The atom alone.
    Plain(AtomForm),
    /// After a `!`.
    Not(AtomForm),
    /// After a `?`.
    Maybe(AtomForm),
    /// Before a `:` and the word of its value.
    Valued(AtomForm, ValueWord),
}
