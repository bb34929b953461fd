ghost use Rattle.std.specs.Prelude.{◌≡◌, Some, IfOk, IfErr};
ghost use Rattle.rf_syntax.specs.Assertion.{arg_pieces, atom_pieces, value_pieces, assertion_pieces};
ghost use Rattle.rf_syntax.specs.Statement.{statement_pieces};
ghost use Rattle.rf_syntax.specs.Terminals.{colon, colon_colon, bang, question};
ghost use Rattle.rf_parser.specs.Fit.{token_kinds};
ghost use Rattle.rf_parser.specs.Private.Parts.{BeginsNoWord};
ghost use Rattle.rf_parser.specs.Private.Parsing.{first_kind, never, either, Parses, StopsAt};

use crate::lists::{parse_in_parens, parse_optional_after};
use crate::part::{Part, Stop};
use crate::terminals::{Terminal, accept, expect, flag};
use rf_failure::Failure;
use rf_lexer::{Keyword, Mark, Token};
use rf_syntax::{Arg, AssertionForm, AtomForm, Statement, SymbolName, ValueWord};
use std::alloc::Global;

impl Part for Arg {
    ghost pieces = { arg_pieces };

    ghost longer = { either colon_colon never };

    fn parse(alloc: Global, tokens: &[Token]) -> Result<(Arg, &[Token]), Stop> {
        if let Some(rest) = accept(tokens, Terminal::Mark(Mark::Star)) {
            return Ok((Arg::Star, rest));
        }
        let (symbol, rest) = SymbolName::parse(alloc, tokens)?;
        Ok((Arg::Symbol(symbol), rest))
    }
}

impl Part for AtomForm {
    ghost pieces = { atom_pieces };

    ghost longer = { never };

    fn parse(alloc: Global, tokens: &[Token]) -> Result<(AtomForm, &[Token]), Stop> {
        let (symbol, rest) = SymbolName::parse(alloc, tokens)?;
        let (args, rest) = parse_in_parens(alloc, rest)?;
        Ok((AtomForm { symbol, args }, rest))
    }
}

impl Part for ValueWord {
    ghost pieces = { value_pieces };

    ghost longer = { never };

    fn parse(_: Global, tokens: &[Token]) -> Result<(ValueWord, &[Token]), Stop> {
        if let Some(rest) = accept(tokens, Terminal::Word(Keyword::True)) {
            return Ok((ValueWord::True, rest));
        }
        if let Some(rest) = accept(tokens, Terminal::Word(Keyword::False)) {
            return Ok((ValueWord::False, rest));
        }
        if let Some(rest) = accept(tokens, Terminal::Word(Keyword::Unknown)) {
            return Ok((ValueWord::Unknown, rest));
        }
        if let Some(rest) = accept(tokens, Terminal::Word(Keyword::Error)) {
            return Ok((ValueWord::Error, rest));
        }
        Err(Failure::Fault(tokens.len()))
    }
}

// An assertion with no mark before it.
fn parse_plain(alloc: Global, tokens: &[Token]) -> Result<(AssertionForm, &[Token]), Stop>
    requires bang { first_kind (token_kinds tokens.now) ≡ Some bang → ⊥ }
    requires question { first_kind (token_kinds tokens.now) ≡ Some question → ⊥ }
    ensures ok { IfOk result (λ p.
        Parses assertion_pieces (either colon never) tokens.now p.0 p.1.now) }
    ensures stop { IfErr result (λ e. StopsAt assertion_pieces (either colon never) tokens.now e) }
{
    let (atom, rest) = AtomForm::parse(alloc, tokens)?;
    let (value, rest) = parse_optional_after(alloc, Terminal::Mark(Mark::Colon), rest)?;
    match value {
        Some(value) => Ok((AssertionForm::Valued(atom, value), rest)),
        None => Ok((AssertionForm::Plain(atom), rest)),
    }
}

impl Part for AssertionForm {
    ghost pieces = { assertion_pieces };

    ghost longer = { either colon never };

    fn parse(alloc: Global, tokens: &[Token]) -> Result<(AssertionForm, &[Token]), Stop> {
        if let Some(after) = accept(tokens, Terminal::Mark(Mark::Bang)) {
            let (atom, rest) = AtomForm::parse(alloc, after)?;
            return Ok((AssertionForm::Not(atom), rest));
        }
        if let Some(after) = accept(tokens, Terminal::Mark(Mark::Question)) {
            let (atom, rest) = AtomForm::parse(alloc, after)?;
            return Ok((AssertionForm::Maybe(atom), rest));
        }
        parse_plain(alloc, tokens)
    }
}

pub fn parse_assert(alloc: Global, tokens: &[Token]) -> Result<(Statement, &[Token]), Stop>
    requires { BeginsNoWord (first_kind (token_kinds tokens.now)) }
    ensures ok { IfOk result (λ p. Parses statement_pieces never tokens.now p.0 p.1.now) }
    ensures stop { IfErr result (λ e. StopsAt statement_pieces never tokens.now e) }
{
    let (is_default, rest) = flag(tokens, Terminal::Word(Keyword::Default));
    let (assertion, rest) = AssertionForm::parse(alloc, rest)?;
    let rest = expect(rest, Terminal::Mark(Mark::Dot))?;
    let statement = Statement::Assert {
        is_default,
        assertion,
    };
    Ok((statement, rest))
}
