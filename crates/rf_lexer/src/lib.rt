//! The words of a problem text: keywords, names, numbers and marks.
#![tactic(auto)]

mod character;
mod error;
mod keyword;
mod laws;
mod lexing;
mod mark;
mod names;
mod numbers;
mod space;
mod token;

pub use error::LexError;
pub use keyword::Keyword;
pub use laws::keywords_law;
pub use lexing::lex;
pub use mark::Mark;
pub use token::{Kind, Token};
