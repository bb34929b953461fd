ghost use Rattle.std.specs.Prelude.{◌≡◌, ◌≢◌, ◌<◌, ◌≤◌, ◌↔◌, ◌∷◌, ◌++◌, ℕ, List, false, length, IfOk, IfErr, IsTrue};
ghost use Rattle.std.specs.Char.{is_ascii_digit};
ghost use Rattle.std.specs.Str.{chars};
ghost use Rattle.rf_lexer.specs.Gap.{BeginsNoGap};
ghost use Rattle.rf_text.specs.Identifier.{starts_identifier};
ghost use Rattle.rf_lexer.specs.Spelling.{mark_spelling};
ghost use Rattle.rf_lexer.specs.Private.Scan.{Fails, Takes};
ghost use Rattle.rf_lexer.specs.Tokens.{Lexemes};
ghost use Rattle.rf_lexer.specs.Fault.{IsCause, LexFault};
ghost use Rattle.rf_failure.specs.Answers.{Answers, IfFault};

use crate::character::{first_char, size};
use crate::mark::first_mark;
use crate::names::{first_identifier, first_quoted};
use crate::numbers::first_number;
use crate::space::skip_gap;
use crate::{Kind, LexError, Token};
use rf_failure::Failure;
use rf_text::starts_identifier;
use std::alloc::Global;

fn begins_with_star(text: &str) -> bool
    ensures { IsTrue result ↔ ((rest : List ℕ) × (chars text.now ≡ 42 ∷ rest)) }
{
    match first_char(text) {
        Some(('*', _)) => true,
        _ => false,
    }
}

// Why no lexeme begins at this offset, where neither an identifier nor a quote nor a digit nor a mark
// begins. `after` is what follows the first character.
fn stray(offset: u64, first: char, after: &str) -> LexError
    requires gap { BeginsNoGap (first ∷ chars after.now) }
    requires mark { (m : _) (rest : _) → first ∷ chars after.now ≡ mark_spelling m ++ rest → ⊥ }
    requires identifier { starts_identifier first ≡ false }
    requires quote { first ≢ 39 }
    requires digit { is_ascii_digit first ≡ false }
    ensures { IsCause result offset (first ∷ chars after.now) }
{
    if first == '/' && begins_with_star(after) {
        LexError::OpenComment(offset)
    } else {
        LexError::BadCharacter(offset)
    }
}

// The kind of the longest lexeme that the text begins with, at this offset, and what follows it.
// The text doesn't begin with a space or a comment.
fn first_lexeme(alloc: Global, offset: u64, text: &str) -> Result<(Kind, &str), Failure<LexError>>
    requires gap { BeginsNoGap (chars text.now) }
    requires more { 0 < length text.now }
    ensures ok { IfOk result (λ p. Takes p.0 (chars text.now) (chars p.1.now)) }
    ensures shorter { IfOk result (λ p. length p.1.now < length text.now) }
    ensures fault { IfErr result (λ e. Fails e offset (chars text.now)) }
{
    let Some((first, after)) = first_char(text) else {
        unreachable!()
    };
    if starts_identifier(first) {
        return first_identifier(alloc, offset, text, after);
    }
    if first == '\'' {
        return first_quoted(alloc, offset, after);
    }
    if first.is_ascii_digit() {
        return first_number(offset, text, first, after);
    }
    if let Some((mark, rest)) = first_mark(text) {
        return Ok((Kind::Mark(mark), rest));
    }
    Err(Failure::Fault(stray(offset, first, after)))
}

// The tokens of the text.
fn tokens_of(alloc: Global, text: &str) -> Result<Vec<Token>, Failure<LexError>>
    ensures ok { IfOk result (λ v. Lexemes text.now v.items) }
    ensures few { IfOk result (λ v. length v.items ≤ length text.now) }
    ensures fault { IfErr result (λ e. IfFault e (LexFault text.now)) }
{
    let mut tokens = Vec::new(alloc);
    let end = size(text);
    let mut rest = skip_gap(text);
    while !rest.is_empty() {
        let start = end - size(rest);
        let (kind, after) = first_lexeme(alloc, start, rest)?;
        tokens.push(Token {
            kind,
            start,
            end: end - size(after),
        })?;
        rest = skip_gap(after);
    }
    Ok(tokens)
}

/// The tokens of a text: its longest lexemes in order, with only spaces and comments between, before
/// and after them. A fault is the first one of the text. It takes time in proportion to the text.
pub fn lex(alloc: Global, text: &str) -> Result<Vec<Token>, Failure<LexError>>
    ensures answers { Answers (λ v. v.items) (Lexemes text.now) (LexFault text.now) result }
    ensures few { IfOk result (λ v. length v.items ≤ length text.now) }
{
    tokens_of(alloc, text)
}
