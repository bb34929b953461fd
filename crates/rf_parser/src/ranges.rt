ghost use Rattle.std.specs.Prelude.{◌≡◌, ℕ, Some, IfSome, IfNone};
ghost use Rattle.rf_syntax.specs.Range.{upper_pieces, range_pieces, mult_pieces};
ghost use Rattle.rf_syntax.specs.Terminals.{number, dot_dot};
ghost use Rattle.rf_parser.specs.Fit.{token_kinds};
ghost use Rattle.rf_parser.specs.Private.Parsing.{first_kind, never, either, StartsWithNumber};

use crate::part::{Part, Stop};
use crate::terminals::{Terminal, accept, expect};
use rf_failure::Failure;
use rf_lexer::{Kind, Mark, Token};
use rf_syntax::{Mult, Range, Upper};
use std::alloc::Global;

// The number that is first, if there is one, its offset, and the tokens after it.
fn first_number(tokens: &[Token]) -> Option<(u32, u64, &[Token])>
    ensures found { IfSome result (λ p. StartsWithNumber tokens.now p.0 p.1 p.2.now) }
    ensures none { IfNone result (
        (n : ℕ) → first_kind (token_kinds tokens.now) ≡ Some (number n) → ⊥) }
{
    match tokens {
        [
            Token {
                kind: Kind::Number(number),
                start,
                ..
            },
            rest @ ..,
        ] => Some((*number, *start, rest)),
        _ => None,
    }
}

impl Part for Upper {
    ghost pieces = { upper_pieces };

    ghost longer = { either dot_dot never };

    fn parse(_: Global, tokens: &[Token]) -> Result<(Upper, &[Token]), Stop> {
        let Some(after) = accept(tokens, Terminal::Mark(Mark::DotDot)) else {
            return Ok((Upper::Absent, tokens));
        };
        if let Some(rest) = accept(after, Terminal::Mark(Mark::Star)) {
            return Ok((Upper::Star, rest));
        }
        let Some((number, _, rest)) = first_number(after) else {
            return Err(Failure::Fault(after.len()));
        };
        Ok((Upper::Number(number), rest))
    }
}

impl Part for Range {
    ghost pieces = { range_pieces };

    ghost longer = { either dot_dot never };

    fn parse(alloc: Global, tokens: &[Token]) -> Result<(Range, &[Token]), Stop> {
        let Some((lo, at, rest)) = first_number(tokens) else {
            return Err(Failure::Fault(tokens.len()));
        };
        let (hi, rest) = Upper::parse(alloc, rest)?;
        Ok((Range { at, lo, hi }, rest))
    }
}

impl Part for Mult {
    ghost pieces = { mult_pieces };

    ghost longer = { never };

    fn parse(alloc: Global, tokens: &[Token]) -> Result<(Mult, &[Token]), Stop> {
        let inner = expect(tokens, Terminal::Mark(Mark::LeftBracket))?;
        if let Some(rest) = accept(inner, Terminal::Mark(Mark::RightBracket)) {
            return Ok((Mult { range: None }, rest));
        }
        let (range, rest) = Range::parse(alloc, inner)?;
        let rest = expect(rest, Terminal::Mark(Mark::RightBracket))?;
        Ok((Mult { range: Some(range) }, rest))
    }
}
