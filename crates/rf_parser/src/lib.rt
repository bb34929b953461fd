//! The parser: from the tokens of a problem text to its statement tree.
#![tactic(auto)]

mod assertions;
mod classes;
mod enums;
mod error;
mod lists;
mod names;
mod parsing;
mod part;
mod predicates;
mod ranges;
mod statements;
mod terminals;

pub use error::ParseError;
pub use parsing::parse;
