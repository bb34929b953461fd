use crate::Symbol;
use rf_text::{Items, Text};

/// An argument of a literal.
#[derive(Clone, Copy, Debug, PartialEq, Eq)]
pub enum Term {
    /// The variable of this number of the clause.
    Var(u8),
    /// Some node of the object of this number, which is an atom; the same at all places of the atom in a literal.
    Atom(u64),
}

/// A part of a clause.
#[derive(Debug, Drop)]
pub enum Literal {
    Call {
        negated: bool,
        /// Whether it asks for a walk of one or more steps of the symbol.
        closure: bool,
        /// A class, a reference or a predicate.
        symbol: Symbol,
        args: Items<Term>,
    },
    /// Both stand for the same node.
    Same(Term, Term),
    /// They stand for different nodes.
    Differ(Term, Term),
}

/// One of the ways in which a predicate holds: all of its literals do.
#[derive(Debug, Drop)]
pub struct Clause {
    /// An entry for each variable, the parameters first: None where it is a parameter or ranges over
    /// the clause, else the number of the literal inside whose negation it ranges.
    pub variables: Items<Option<u8>>,
    pub literals: Items<Literal>,
}

/// A predicate. It holds where one of its clauses does. Its number is its place in the problem's list
/// of predicates, from 0.
#[derive(Debug, Drop)]
pub struct Predicate {
    pub name: Text,
    /// Whether it must hold nowhere.
    pub is_error: bool,
    /// How many parameters it has.
    pub arity: u8,
    pub clauses: Items<Clause>,
}
