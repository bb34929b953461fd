ghost use Rattle.std.specs.Prelude.{◌≡◌, Some, IfOk, IfErr};
ghost use Rattle.rf_syntax.specs.Enum.{enum_body_pieces};
ghost use Rattle.rf_syntax.specs.Statement.{statement_pieces};
ghost use Rattle.rf_syntax.specs.Terminals.{enum_word};
ghost use Rattle.rf_parser.specs.Fit.{token_kinds};
ghost use Rattle.rf_parser.specs.Private.Parsing.{first_kind, never, Parses, StopsAt};

use crate::lists::parse_listed_to;
use crate::part::{Part, Stop};
use crate::terminals::{Terminal, accept, expect};
use rf_lexer::{Keyword, Mark, Token};
use rf_syntax::{Name, Statement};
use rf_text::Items;
use std::alloc::Global;

// The literals between braces, or None where a full stop is in their place.
fn parse_literals(alloc: Global, tokens: &[Token]) -> Result<(Option<Items<Name>>, &[Token]), Stop>
    ensures ok { IfOk result (λ p. Parses enum_body_pieces never tokens.now p.0 p.1.now) }
    ensures stop { IfErr result (λ e. StopsAt enum_body_pieces never tokens.now e) }
{
    if let Some(inner) = accept(tokens, Terminal::Mark(Mark::LeftBrace)) {
        let (literals, rest) = parse_listed_to(alloc, Terminal::Mark(Mark::RightBrace), inner)?;
        return Ok((Some(literals), rest));
    }
    let rest = expect(tokens, Terminal::Mark(Mark::Dot))?;
    Ok((None, rest))
}

pub fn parse_enum(alloc: Global, tokens: &[Token]) -> Result<(Statement, &[Token]), Stop>
    requires { first_kind (token_kinds tokens.now) ≡ Some enum_word }
    ensures ok { IfOk result (λ p. Parses statement_pieces never tokens.now p.0 p.1.now) }
    ensures stop { IfErr result (λ e. StopsAt statement_pieces never tokens.now e) }
{
    let rest = expect(tokens, Terminal::Word(Keyword::Enum))?;
    let (name, rest) = Name::parse(alloc, rest)?;
    let (literals, rest) = parse_literals(alloc, rest)?;
    Ok((Statement::Enum { name, literals }, rest))
}
