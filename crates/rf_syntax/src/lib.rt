//! The statement tree of problem texts, and its spelling: the kinds of the tokens that a tree
//! stands for.
#![tactic(auto, using(crate::proofs::Joined::kinds_joined))]

mod assertion;
mod class;
mod laws;
mod name;
mod non_empty;
mod predicate;
mod range;
mod spell;
mod statement;

pub use assertion::{Arg, AssertionForm, AtomForm, ValueWord};
pub use class::{Feature, FeatureWord, MultPlace};
pub use laws::{statement_begins_law, statement_ends_law, statements_apart_law};
pub use name::{Name, SymbolName};
pub use non_empty::NonEmpty;
pub use predicate::{BodyLiteral, Param, PredicateWord};
pub use range::{Mult, Range, Upper};
pub use spell::spelling;
pub use statement::{Ast, Bound, Item, Statement};
