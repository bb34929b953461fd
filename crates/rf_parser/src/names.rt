ghost use Rattle.std.specs.Prelude.{◌∷◌, [], IfOk, IfErr, IfSome, IfNone};
ghost use Rattle.rf_syntax.specs.Name.{name_pieces, symbol_pieces};
ghost use Rattle.rf_syntax.specs.Parts.{optional};
ghost use Rattle.rf_syntax.specs.Terminals.{colon_colon};
ghost use Rattle.rf_parser.specs.Fit.{Fits, token_kinds};
ghost use Rattle.rf_parser.specs.Private.Parsing.{BeginsNoName, never, either, IsNameKind, Parses, StopsAt};

use crate::lists::parse_optional_after;
use crate::part::{Part, Stop};
use crate::terminals::Terminal;
use rf_failure::Failure;
use rf_lexer::{Kind, Mark, Token};
use rf_syntax::{Name, SymbolName};
use std::alloc::{AllocError, Global};

impl Part for Name {
    ghost pieces = { name_pieces };

    ghost longer = { never };

    fn parse(_: Global, tokens: &[Token]) -> Result<(Name, &[Token]), Stop> {
        match first_name(tokens)? {
            Some((name, rest)) => Ok((name, rest)),
            None => Err(Failure::Fault(tokens.len())),
        }
    }
}

// The name that a token is, if it is one.
fn name_of(token: &Token) -> Result<Option<Name>, AllocError>
    ensures found { IfOk result (λ found.
        IfSome found (λ name. Fits (token.now ∷ []) (name_pieces name))) }
    ensures none { IfOk result (λ found. IfNone found (IsNameKind token.now.kind → ⊥)) }
{
    match &token.kind {
        Kind::Name(text) => Ok(Some(Name {
            text: text.clone()?,
            quoted: false,
            at: token.start,
        })),
        Kind::Quoted(text) => Ok(Some(Name {
            text: text.clone()?,
            quoted: true,
            at: token.start,
        })),
        _ => Ok(None),
    }
}

// The name that is first, if there is one, and the tokens after it.
fn first_name(tokens: &[Token]) -> Result<Option<(Name, &[Token])>, AllocError>
    ensures found { IfOk result (λ found.
        IfSome found (λ p. Parses name_pieces never tokens.now p.0 p.1.now)) }
    ensures none { IfOk result (λ found. IfNone found (BeginsNoName (token_kinds tokens.now))) }
{
    let Some((first, rest)) = tokens.split_first() else {
        return Ok(None);
    };
    match name_of(first)? {
        Some(name) => Ok(Some((name, rest))),
        None => Ok(None),
    }
}

// The same, where a name may be left out.
pub fn parse_optional_name(tokens: &[Token]) -> Result<(Option<Name>, &[Token]), Stop>
    ensures ok { IfOk result (λ p.
        Parses (optional name_pieces) IsNameKind tokens.now p.0 p.1.now) }
    ensures stop { IfErr result (λ e. StopsAt (optional name_pieces) IsNameKind tokens.now e) }
{
    match first_name(tokens)? {
        Some((name, rest)) => Ok((Some(name), rest)),
        None => Ok((None, tokens)),
    }
}

impl Part for SymbolName {
    ghost pieces = { symbol_pieces };

    ghost longer = { either colon_colon never };

    fn parse(alloc: Global, tokens: &[Token]) -> Result<(SymbolName, &[Token]), Stop> {
        let (name, rest) = Name::parse(alloc, tokens)?;
        let (member, rest) = parse_optional_after(alloc, Terminal::Mark(Mark::ColonColon), rest)?;
        Ok((SymbolName { name, member }, rest))
    }
}
