use crate::{AssertionForm, BodyLiteral, Feature, Name, NonEmpty, Param, PredicateWord, Range};
use rf_text::Items;

/// The statements of a problem text, in order.
#[derive(Debug, Drop)]
pub struct Ast {
    pub statements: Items<Statement>,
}

#[derive(Debug, Drop)]
pub enum Statement {
    Class {
        is_abstract: bool,
        name: Name,
        supers: Option<NonEmpty<Name>>,
        /// The features between braces, or None where a `.` ends the statement.
        body: Option<Items<Feature>>,
    },
    Enum {
        name: Name,
        /// The literals between braces, or None where a `.` ends the statement.
        literals: Option<Items<Name>>,
    },
    Predicate {
        start: PredicateWord,
        name: Name,
        params: Items<Param>,
        clauses: NonEmpty<NonEmpty<BodyLiteral>>,
    },
    Declare(NonEmpty<Name>),
    Multi(NonEmpty<Item>),
    Atoms(NonEmpty<Name>),
    Scope(NonEmpty<Bound>),
    Assert {
        is_default: bool,
        assertion: AssertionForm,
    },
}

/// An object that stands for several nodes.
#[derive(Debug, Drop)]
pub struct Item {
    pub name: Name,
    pub range: Option<Range>,
}

/// A bound on how many nodes a class has.
#[derive(Debug, Drop)]
pub struct Bound {
    pub name: Name,
    /// Whether it is written `+=`, and counts only nodes of new objects.
    pub only_new: bool,
    pub range: Range,
}
