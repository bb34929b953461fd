ghost use Rattle.std.specs.Prelude.{◌≡◌, Some, IfOk, IfErr};
ghost use Rattle.rf_syntax.specs.Statement.{item_pieces, bound_pieces, statement_pieces};
ghost use Rattle.rf_syntax.specs.Terminals.{atom_word, declare_word, multi_word, scope_word, dot, dot_dot, comma, equal};
ghost use Rattle.rf_parser.specs.Fit.{token_kinds};
ghost use Rattle.rf_parser.specs.Private.Parts.{list_to_dot, bound_mark};
ghost use Rattle.rf_parser.specs.Private.Parsing.{first_kind, never, either, Parses, StopsAt};

use crate::assertions::parse_assert;
use crate::classes::parse_class;
use crate::enums::parse_enum;
use crate::lists::{parse_optional_after, parse_separated};
use crate::part::{Part, Stop};
use crate::predicates::parse_predicate;
use crate::terminals::{Terminal, accept, begins_with, expect};
use rf_lexer::{Keyword, Mark, Token};
use rf_syntax::{Bound, Item, Name, NonEmpty, Range, Statement};
use std::alloc::Global;

impl Part for Item {
    ghost pieces = { item_pieces };

    ghost longer = { either equal (either dot_dot never) };

    fn parse(alloc: Global, tokens: &[Token]) -> Result<(Item, &[Token]), Stop> {
        let (name, rest) = Name::parse(alloc, tokens)?;
        let (range, rest) = parse_optional_after(alloc, Terminal::Mark(Mark::Equal), rest)?;
        Ok((Item { name, range }, rest))
    }
}

// Whether `+=` is first, and not `=`.
fn parse_bound_mark(tokens: &[Token]) -> Result<(bool, &[Token]), Stop>
    ensures ok { IfOk result (λ p. Parses bound_mark never tokens.now p.0 p.1.now) }
    ensures stop { IfErr result (λ e. StopsAt bound_mark never tokens.now e) }
{
    if let Some(rest) = accept(tokens, Terminal::Mark(Mark::PlusEqual)) {
        return Ok((true, rest));
    }
    let rest = expect(tokens, Terminal::Mark(Mark::Equal))?;
    Ok((false, rest))
}

impl Part for Bound {
    ghost pieces = { bound_pieces };

    ghost longer = { either dot_dot never };

    fn parse(alloc: Global, tokens: &[Token]) -> Result<(Bound, &[Token]), Stop> {
        let (name, rest) = Name::parse(alloc, tokens)?;
        let (only_new, rest) = parse_bound_mark(rest)?;
        let (range, rest) = Range::parse(alloc, rest)?;
        let bound = Bound {
            name,
            only_new,
            range,
        };
        Ok((bound, rest))
    }
}

// Parts with commas between them, and a full stop.
fn parse_list<T: Part>(alloc: Global, tokens: &[Token]) -> Result<(NonEmpty<T>, &[Token]), Stop>
    requires comma { T.longer comma → ⊥ }
    requires dot { T.longer dot → ⊥ }
    ensures ok { IfOk result (λ p. Parses (list_to_dot T.pieces) never tokens.now p.0 p.1.now) }
    ensures stop { IfErr result (λ e. StopsAt (list_to_dot T.pieces) never tokens.now e) }
{
    let (parts, rest) = parse_separated(alloc, Terminal::Mark(Mark::Comma), tokens)?;
    let rest = expect(rest, Terminal::Mark(Mark::Dot))?;
    Ok((parts, rest))
}

fn parse_declare(alloc: Global, tokens: &[Token]) -> Result<(Statement, &[Token]), Stop>
    requires { first_kind (token_kinds tokens.now) ≡ Some declare_word }
    ensures ok { IfOk result (λ p. Parses statement_pieces never tokens.now p.0 p.1.now) }
    ensures stop { IfErr result (λ e. StopsAt statement_pieces never tokens.now e) }
{
    let rest = expect(tokens, Terminal::Word(Keyword::Declare))?;
    let (names, rest) = parse_list(alloc, rest)?;
    Ok((Statement::Declare(names), rest))
}

fn parse_multi(alloc: Global, tokens: &[Token]) -> Result<(Statement, &[Token]), Stop>
    requires { first_kind (token_kinds tokens.now) ≡ Some multi_word }
    ensures ok { IfOk result (λ p. Parses statement_pieces never tokens.now p.0 p.1.now) }
    ensures stop { IfErr result (λ e. StopsAt statement_pieces never tokens.now e) }
{
    let rest = expect(tokens, Terminal::Word(Keyword::Multi))?;
    let (items, rest) = parse_list(alloc, rest)?;
    Ok((Statement::Multi(items), rest))
}

fn parse_atoms(alloc: Global, tokens: &[Token]) -> Result<(Statement, &[Token]), Stop>
    requires { first_kind (token_kinds tokens.now) ≡ Some atom_word }
    ensures ok { IfOk result (λ p. Parses statement_pieces never tokens.now p.0 p.1.now) }
    ensures stop { IfErr result (λ e. StopsAt statement_pieces never tokens.now e) }
{
    let rest = expect(tokens, Terminal::Word(Keyword::Atom))?;
    let (names, rest) = parse_list(alloc, rest)?;
    Ok((Statement::Atoms(names), rest))
}

fn parse_scope(alloc: Global, tokens: &[Token]) -> Result<(Statement, &[Token]), Stop>
    requires { first_kind (token_kinds tokens.now) ≡ Some scope_word }
    ensures ok { IfOk result (λ p. Parses statement_pieces never tokens.now p.0 p.1.now) }
    ensures stop { IfErr result (λ e. StopsAt statement_pieces never tokens.now e) }
{
    let rest = expect(tokens, Terminal::Word(Keyword::Scope))?;
    let (bounds, rest) = parse_list(alloc, rest)?;
    Ok((Statement::Scope(bounds), rest))
}

impl Part for Statement {
    ghost pieces = { statement_pieces };

    ghost longer = { never };

    fn parse(alloc: Global, tokens: &[Token]) -> Result<(Statement, &[Token]), Stop> {
        if begins_with(tokens, Terminal::Word(Keyword::Abstract))
            || begins_with(tokens, Terminal::Word(Keyword::Class))
        {
            return parse_class(alloc, tokens);
        }
        if begins_with(tokens, Terminal::Word(Keyword::Enum)) {
            return parse_enum(alloc, tokens);
        }
        if begins_with(tokens, Terminal::Word(Keyword::Pred))
            || begins_with(tokens, Terminal::Word(Keyword::Error))
        {
            return parse_predicate(alloc, tokens);
        }
        if begins_with(tokens, Terminal::Word(Keyword::Declare)) {
            return parse_declare(alloc, tokens);
        }
        if begins_with(tokens, Terminal::Word(Keyword::Multi)) {
            return parse_multi(alloc, tokens);
        }
        if begins_with(tokens, Terminal::Word(Keyword::Atom)) {
            return parse_atoms(alloc, tokens);
        }
        if begins_with(tokens, Terminal::Word(Keyword::Scope)) {
            return parse_scope(alloc, tokens);
        }
        parse_assert(alloc, tokens)
    }
}
