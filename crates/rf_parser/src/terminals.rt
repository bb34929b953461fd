//! Words and marks, which a text must have there or may leave out.

ghost use Rattle.std.specs.Prelude.{◌≡◌, ◌↔◌, Some, IfSome, IfNone, IfOk, IfErr, IsTrue};
ghost use Rattle.rf_syntax.specs.Parts.{flagged};
ghost use Rattle.rf_parser.specs.Fit.{token_kinds};
ghost use Rattle.rf_parser.specs.Private.Parts.{kind_of, single};
ghost use Rattle.rf_parser.specs.Private.Parsing.{first_kind, never, either, StartsWith, Parses, StopsAt};

use crate::part::Stop;
use rf_failure::Failure;
use rf_lexer::{Keyword, Kind, Mark, Token};

#[derive(Clone, Copy)]
pub enum Terminal {
    Word(Keyword),
    Mark(Mark),
}

impl Terminal {
    fn is_kind(self, kind: &Kind) -> bool
        ensures { IsTrue result ↔ (kind.now ≡ kind_of self) }
    {
        match (self, kind) {
            (Terminal::Word(word), Kind::Word(other)) => word == *other,
            (Terminal::Mark(mark), Kind::Mark(other)) => mark == *other,
            _ => false,
        }
    }
}

// The tokens after the terminal, if it is first.
pub fn accept(tokens: &[Token], terminal: Terminal) -> Option<&[Token]>
    ensures found { IfSome result (λ rest. StartsWith tokens.now (kind_of terminal) rest.now) }
    ensures none { IfNone result (
        first_kind (token_kinds tokens.now) ≡ Some (kind_of terminal) → ⊥) }
{
    match tokens {
        [first, rest @ ..] if terminal.is_kind(&first.kind) => Some(rest),
        _ => None,
    }
}

pub fn begins_with(tokens: &[Token], terminal: Terminal) -> bool
    ensures { IsTrue result ↔ (first_kind (token_kinds tokens.now) ≡ Some (kind_of terminal)) }
{
    accept(tokens, terminal).is_some()
}

// The tokens after the terminal, which has to be first.
pub fn expect(tokens: &[Token], terminal: Terminal) -> Result<&[Token], Stop>
    ensures ok { IfOk result (λ rest.
        Parses (single (kind_of terminal)) never tokens.now tt rest.now) }
    ensures stop { IfErr result (λ e. StopsAt (single (kind_of terminal)) never tokens.now e) }
{
    match accept(tokens, terminal) {
        Some(rest) => Ok(rest),
        None => Err(Failure::Fault(tokens.len())),
    }
}

// Whether the terminal is first, and the tokens after it.
pub fn flag(tokens: &[Token], terminal: Terminal) -> (bool, &[Token])
    ensures { Parses (λ is_set. flagged is_set (kind_of terminal)) (either (kind_of terminal) never)
        tokens.now result.0 result.1.now }
{
    match accept(tokens, terminal) {
        Some(rest) => (true, rest),
        None => (false, tokens),
    }
}
