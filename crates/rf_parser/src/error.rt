use thiserror::Error;

/// Why tokens are not a text of the grammar.
#[derive(Clone, Copy, Debug, PartialEq, Eq, Error)]
pub enum ParseError {
    /// No text of the grammar has this token after those before it. It is counted from 0, and is the
    /// number of tokens where they end too early.
    #[error("unexpected token")]
    Unexpected(u64),
}
