ghost use Rattle.std.specs.Prelude.{◌≡◌, ◌<◌, ◌^◌, All, length};
ghost use Rattle.rf_failure.specs.Answers.{Answers};
ghost use Rattle.rf_parser.specs.Fit.{token_kinds};
ghost use Rattle.rf_resolve.specs.Fault.{Resolves};
ghost use Rattle.rf_resolve.specs.Readable.{IsReadable, IsReadableTree};
ghost use Rattle.rf_source.specs.Source.{IsSource, SourceFault, offset_of_token};
ghost use Rattle.rf_syntax.specs.Statement.{spelling_of};
ghost use Rattle.rf_source.specs.Private.Stages.{IsTokens, TokensFault, TreeFault, located_fault};

use crate::SourceError;
use rf_failure::Failure;
use rf_lexer::{Token, lex};
use rf_parser::{ParseError, parse};
use rf_problem::Problem;
use rf_resolve::resolve;
use rf_syntax::Ast;
use std::alloc::Global;

// The byte offset of a token; after the last one the end of the text.
fn offset_of(tokens: &[Token], end: u64, number: u64) -> u64
    ensures { result ≡ offset_of_token tokens.now end number }
{
    match tokens.get(number as usize) {
        Some(token) => token.start,
        None => end,
    }
}

// The fault of a text whose tokens are refused so.
fn located(tokens: &[Token], end: u64, error: ParseError) -> SourceError
    ensures { result ≡ located_fault tokens.now end error }
{
    match error {
        ParseError::Unexpected(token) => SourceError::Unexpected {
            token,
            at: offset_of(tokens, end, token),
        },
    }
}

// The problem of a tree.
fn read_tree(alloc: Global, ast: &Ast) -> Result<Problem, Failure<SourceError>>
    requires read { IsReadableTree ast.now }
    requires short { length (spelling_of ast.now) < 2 ^ 32 }
    ensures { Answers (λ p. p) (Resolves ast.now) (TreeFault ast.now) result }
{
    match resolve(alloc, ast) {
        Ok(problem) => Ok(problem),
        Err(Failure::Fault(error)) => Err(Failure::Fault(SourceError::Names(error))),
        Err(Failure::Memory) => Err(Failure::Memory),
    }
}

// The problem of the tokens of a text, which ends at this offset.
fn read_tokens(alloc: Global, tokens: &[Token], end: u64) -> Result<Problem, Failure<SourceError>>
    requires read { All IsReadable (token_kinds tokens.now) }
    requires short { length tokens.now < 2 ^ 32 }
    ensures { Answers (λ p. p) (IsTokens tokens.now) (TokensFault tokens.now end) result }
{
    match parse(alloc, tokens) {
        Ok(ast) => read_tree(alloc, &ast),
        Err(Failure::Fault(error)) => Err(Failure::Fault(located(tokens, end, error))),
        Err(Failure::Memory) => Err(Failure::Memory),
    }
}

// The problem of a text.
fn read_text(alloc: Global, text: &str) -> Result<Problem, Failure<SourceError>>
    requires { length text.now < 2 ^ 32 }
    ensures { Answers (λ p. p) (IsSource text.now) (SourceFault text.now) result }
{
    match lex(alloc, text) {
        Ok(tokens) => read_tokens(alloc, tokens.as_slice(), text.len() as u64),
        Err(Failure::Fault(error)) => Err(Failure::Fault(SourceError::Lexical(error))),
        Err(Failure::Memory) => Err(Failure::Memory),
    }
}

/// The problem that the bytes of a file stand for, or the fault of the first stage that refuses
/// them: UTF-8, then tokens, then the grammar, then names.
pub fn read_source(alloc: Global, bytes: &[u8]) -> Result<Problem, Failure<SourceError>>
    requires { length bytes.now < 2 ^ 32 }
    ensures answers { Answers (λ p. p) (IsSource bytes.now) (SourceFault bytes.now) result }
{
    match str::from_utf8(bytes) {
        Ok(text) => read_text(alloc, text),
        Err(error) => Err(Failure::Fault(SourceError::NotUtf8(error.valid_up_to() as u64))),
    }
}
