use rf_lexer::LexError;
use rf_resolve::NameError;
use thiserror::Error;

/// Why the bytes of a file are not a problem. The stages are asked in this order.
#[derive(Clone, Copy, Debug, PartialEq, Eq, Error)]
pub enum SourceError {
    /// The bytes are not UTF-8: the length of their longest prefix that is.
    #[error("not utf-8")]
    NotUtf8(u64),
    /// The text is not a list of tokens.
    #[error("lexical fault")]
    Lexical(LexError),
    /// No text of the grammar has this token, counted from 0, after those before it. `at` is its byte
    /// offset; at the end of the text both are what follows the last one.
    #[error("unexpected token")]
    Unexpected { token: u64, at: u64 },
    /// A rule of names is broken.
    #[error("fault of names")]
    Names(NameError),
}
