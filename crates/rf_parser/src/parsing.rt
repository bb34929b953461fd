ghost use Rattle.std.specs.Prelude.{IfOk, IfErr, []};
ghost use Rattle.rf_failure.specs.Answers.{Answers};
ghost use Rattle.rf_parser.specs.Fit.{IsTreeOf};
ghost use Rattle.rf_parser.specs.Private.Parts.{statements_pieces};
ghost use Rattle.rf_parser.specs.Private.Parsing.{anything, Parses, StopsAt};
ghost use Rattle.rf_parser.specs.Refusal.{ParseFault};

use crate::ParseError;
use crate::part::{Part, Stop};
use rf_failure::Failure;
use rf_lexer::Token;
use rf_syntax::{Ast, Statement};
use rf_text::Items;
use std::alloc::Global;

// The statements of the tokens up to their end.
fn parse_statements(alloc: Global, tokens: &[Token]) -> Result<Items<Statement>, Stop>
    ensures ok { IfOk result (λ statements.
        Parses statements_pieces anything tokens.now statements []) }
    ensures stop { IfErr result (λ e. StopsAt statements_pieces anything tokens.now e) }
{
    let mut statements = Items::from_vec(Vec::new(alloc));
    let mut rest = tokens;
    while !rest.is_empty() {
        let (statement, next) = Statement::parse(alloc, rest)?;
        statements.push(statement)?;
        rest = next;
    }
    Ok(statements)
}

/// The tree of a text with these tokens. It takes time in proportion to their number.
pub fn parse(alloc: Global, tokens: &[Token]) -> Result<Ast, Failure<ParseError>>
    ensures answers { Answers (λ ast. ast) (IsTreeOf tokens.now) (ParseFault tokens.now) result }
{
    match parse_statements(alloc, tokens) {
        Ok(statements) => Ok(Ast { statements }),
        Err(Failure::Fault(left)) => Err(Failure::Fault(ParseError::Unexpected(
            (tokens.len() - left) as u64,
        ))),
        Err(Failure::Memory) => Err(Failure::Memory),
    }
}
