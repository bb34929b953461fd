use thiserror::Error;

/// Why a text isn't tokens, with the offset of the byte where that shows, from 0.
#[derive(Clone, Copy, Debug, PartialEq, Eq, Error)]
pub enum LexError {
    /// A character that begins nothing.
    #[error("bad character")]
    BadCharacter(u64),
    /// A comment that isn't closed.
    #[error("open comment")]
    OpenComment(u64),
    /// A quote that isn't closed in its line.
    #[error("open quote")]
    OpenQuote(u64),
    /// A name of more than 255 bytes.
    #[error("long name")]
    LongName(u64),
    /// A number above 1,000,000.
    #[error("big number")]
    BigNumber(u64),
}
