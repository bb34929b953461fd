//! What an error says of itself.

use rf_lexer::LexError;
use rf_source::SourceError;
use std::test::Fail;

#[test]
fn lexical_errors_are_named(rt: HostRuntime) -> Result<(), Fail> {
    let alloc = rt.alloc();
    for (error, want) in [
        (LexError::BadCharacter(0), "bad character"),
        (LexError::OpenComment(0), "open comment"),
        (LexError::OpenQuote(0), "open quote"),
        (LexError::LongName(0), "long name"),
        (LexError::BigNumber(0), "big number"),
    ] {
        assert_eq!(rt; format!(in alloc; "{error}")?.as_str(), want);
    }
    Ok(())
}

#[test]
fn errors_of_problem_texts_are_named(rt: HostRuntime) -> Result<(), Fail> {
    let alloc = rt.alloc();
    for (error, want) in [
        (SourceError::NotUtf8(0), "not utf-8"),
        (
            SourceError::Lexical(LexError::BadCharacter(0)),
            "lexical fault",
        ),
        (
            SourceError::Unexpected { token: 0, at: 0 },
            "unexpected token",
        ),
    ] {
        assert_eq!(rt; format!(in alloc; "{error}")?.as_str(), want);
    }
    Ok(())
}
