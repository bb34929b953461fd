ghost use Rattle.std.specs.Prelude.{◌≡◌, IfOk, IfErr};
ghost use Rattle.rf_syntax.specs.Predicate.{start_pieces, param_pieces, literal_pieces, clause_pieces};
ghost use Rattle.rf_syntax.specs.Statement.{statement_pieces};
ghost use Rattle.rf_syntax.specs.Terminals.{pred_word, comma};
ghost use Rattle.rf_parser.specs.Fit.{token_kinds};
ghost use Rattle.rf_parser.specs.Private.Parts.{call_tail_pieces, literal_tail_pieces, call_with, literal_with, BeginsPredicate};
ghost use Rattle.rf_parser.specs.Private.Parsing.{first_kind, never, either, IsNameKind, Parses, StopsAt};

use crate::lists::{parse_in_parens, parse_optional_after, parse_separated};
use crate::names::parse_optional_name;
use crate::part::{Part, Stop};
use crate::terminals::{Terminal, accept, expect, flag};
use rf_lexer::{Keyword, Mark, Token};
use rf_syntax::{BodyLiteral, Name, NonEmpty, Param, PredicateWord, Statement, SymbolName};
use rf_text::Items;
use std::alloc::Global;

impl Part for PredicateWord {
    ghost pieces = { start_pieces };

    ghost longer = { either pred_word never };

    fn parse(_: Global, tokens: &[Token]) -> Result<(PredicateWord, &[Token]), Stop> {
        let Some(after) = accept(tokens, Terminal::Word(Keyword::Error)) else {
            let rest = expect(tokens, Terminal::Word(Keyword::Pred))?;
            return Ok((PredicateWord::Pred, rest));
        };
        let (both, rest) = flag(after, Terminal::Word(Keyword::Pred));
        if both {
            Ok((PredicateWord::ErrorPred, rest))
        } else {
            Ok((PredicateWord::Error, rest))
        }
    }
}

impl Part for Param {
    ghost pieces = { param_pieces };

    ghost longer = { IsNameKind };

    fn parse(alloc: Global, tokens: &[Token]) -> Result<(Param, &[Token]), Stop> {
        let (first, rest) = Name::parse(alloc, tokens)?;
        let (second, rest) = parse_optional_name(rest)?;
        match second {
            Some(name) => Ok((
                Param {
                    class: Some(first),
                    name,
                },
                rest,
            )),
            None => Ok((
                Param {
                    class: None,
                    name: first,
                },
                rest,
            )),
        }
    }
}

// What follows the first name of a call.
#[derive(Drop)]
struct CallTail {
    member: Option<Name>,
    closure: bool,
    args: Items<Name>,
}

impl Part for CallTail {
    ghost pieces = { call_tail_pieces };

    ghost longer = { never };

    fn parse(alloc: Global, tokens: &[Token]) -> Result<(CallTail, &[Token]), Stop> {
        let (member, rest) = parse_optional_after(alloc, Terminal::Mark(Mark::ColonColon), tokens)?;
        let (closure, rest) = flag(rest, Terminal::Mark(Mark::Plus));
        let (args, rest) = parse_in_parens(alloc, rest)?;
        let tail = CallTail {
            member,
            closure,
            args,
        };
        Ok((tail, rest))
    }
}

// What follows the first name of a literal without `!`.
#[derive(Drop)]
enum LiteralTail {
    Same(Name),
    Differ(Name),
    Call(CallTail),
}

impl Part for LiteralTail {
    ghost pieces = { literal_tail_pieces };

    ghost longer = { never };

    fn parse(alloc: Global, tokens: &[Token]) -> Result<(LiteralTail, &[Token]), Stop> {
        if let Some(after) = accept(tokens, Terminal::Mark(Mark::EqualEqual)) {
            let (right, rest) = Name::parse(alloc, after)?;
            return Ok((LiteralTail::Same(right), rest));
        }
        if let Some(after) = accept(tokens, Terminal::Mark(Mark::BangEqual)) {
            let (right, rest) = Name::parse(alloc, after)?;
            return Ok((LiteralTail::Differ(right), rest));
        }
        let (call, rest) = CallTail::parse(alloc, tokens)?;
        Ok((LiteralTail::Call(call), rest))
    }
}

fn call_of(negated: bool, name: Name, tail: CallTail) -> BodyLiteral
    ensures { result ≡ call_with negated name tail }
{
    let CallTail {
        member,
        closure,
        args,
    } = tail;
    BodyLiteral::Call {
        negated,
        symbol: SymbolName { name, member },
        closure,
        args,
    }
}

fn literal_of(left: Name, tail: LiteralTail) -> BodyLiteral
    ensures { result ≡ literal_with left tail }
{
    match tail {
        LiteralTail::Same(right) => BodyLiteral::Same(left, right),
        LiteralTail::Differ(right) => BodyLiteral::Differ(left, right),
        LiteralTail::Call(tail) => call_of(false, left, tail),
    }
}

impl Part for BodyLiteral {
    ghost pieces = { literal_pieces };

    ghost longer = { never };

    fn parse(alloc: Global, tokens: &[Token]) -> Result<(BodyLiteral, &[Token]), Stop> {
        if let Some(after) = accept(tokens, Terminal::Mark(Mark::Bang)) {
            let (name, rest) = Name::parse(alloc, after)?;
            let (tail, rest) = CallTail::parse(alloc, rest)?;
            return Ok((call_of(true, name, tail), rest));
        }
        let (left, rest) = Name::parse(alloc, tokens)?;
        let (tail, rest) = LiteralTail::parse(alloc, rest)?;
        Ok((literal_of(left, tail), rest))
    }
}

impl Part for NonEmpty<BodyLiteral> {
    ghost pieces = { clause_pieces };

    ghost longer = { either comma never };

    fn parse(alloc: Global, tokens: &[Token]) -> Result<(NonEmpty<BodyLiteral>, &[Token]), Stop> {
        parse_separated(alloc, Terminal::Mark(Mark::Comma), tokens)
    }
}

pub fn parse_predicate(alloc: Global, tokens: &[Token]) -> Result<(Statement, &[Token]), Stop>
    requires { BeginsPredicate (first_kind (token_kinds tokens.now)) }
    ensures ok { IfOk result (λ p. Parses statement_pieces never tokens.now p.0 p.1.now) }
    ensures stop { IfErr result (λ e. StopsAt statement_pieces never tokens.now e) }
{
    let (start, rest) = PredicateWord::parse(alloc, tokens)?;
    let (name, rest) = Name::parse(alloc, rest)?;
    let (params, rest) = parse_in_parens(alloc, rest)?;
    let rest = expect(rest, Terminal::Mark(Mark::Iff))?;
    let (clauses, rest) = parse_separated(alloc, Terminal::Mark(Mark::Semicolon), rest)?;
    let rest = expect(rest, Terminal::Mark(Mark::Dot))?;
    let predicate = Statement::Predicate {
        start,
        name,
        params,
        clauses,
    };
    Ok((predicate, rest))
}
