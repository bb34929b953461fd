use crate::{Keyword, Mark};
use rf_text::Text;

/// What a token is.
#[derive(Clone, Debug, Drop)]
pub enum Kind {
    Word(Keyword),
    /// An identifier that isn't a keyword.
    Name(Text),
    /// A name between single quotes, without them. It may be empty.
    Quoted(Text),
    /// A number of at most 1,000,000.
    Number(u32),
    Mark(Mark),
}

/// A token, and the offsets of its first byte and of the byte after its last one, from 0.
#[derive(Clone, Debug, Drop)]
pub struct Token {
    pub kind: Kind,
    pub start: u64,
    pub end: u64,
}
