ghost use Rattle.std.specs.Prelude.{◌≡◌, ◌++◌, ◌∷◌, OnOk};
ghost use Rattle.rf_syntax.specs.Parts.{in_parens, separated_or_none};
ghost use Rattle.rf_syntax.specs.Name.{name_pieces};
ghost use Rattle.rf_syntax.specs.Piece.{kinds_of, terminal};
ghost use Rattle.rf_syntax.specs.Predicate.{literal_pieces, param_pieces, predicate_pieces, start_pieces};
ghost use Rattle.rf_syntax.specs.Terminals.{comma};

use super::parts::{
    push_flagged, push_mark, push_optional, push_separated, push_separated_or_none, push_word,
};
use super::production::Production;
use crate::{BodyLiteral, Name, NonEmpty, Param, PredicateWord, SymbolName};
use rf_lexer::{Keyword, Kind, Mark};
use rf_text::Items;
use std::alloc::AllocError;

impl Production for PredicateWord {
    ghost pieces = { start_pieces };

    fn push_to(&self, out: &mut Vec<Kind>) -> Result<(), AllocError> {
        match *self {
            PredicateWord::Pred => push_word(out, Keyword::Pred),
            PredicateWord::Error => push_word(out, Keyword::Error),
            PredicateWord::ErrorPred => {
                push_word(out, Keyword::Error)?;
                push_word(out, Keyword::Pred)
            }
        }
    }
}

impl Production for Param {
    ghost pieces = { param_pieces };

    fn push_to(&self, out: &mut Vec<Kind>) -> Result<(), AllocError> {
        push_optional(out, &self.class)?;
        self.name.push_to(out)
    }
}

// Appends a list that may be empty, with commas between its parts, in parentheses.
pub fn push_in_parens<T: Production>(out: &mut Vec<Kind>, parts: &[T]) -> Result<(), AllocError>
    ensures { OnOk result (
        out.new.items
        ≡ out.old.items ++ kinds_of (in_parens (separated_or_none comma T.pieces parts.now))) }
{
    push_mark(out, Mark::LeftParen)?;
    push_separated_or_none(out, Mark::Comma, parts)?;
    push_mark(out, Mark::RightParen)
}

// Appends a call.
fn push_call(
    out: &mut Vec<Kind>,
    negated: bool,
    symbol: &SymbolName,
    closure: bool,
    args: &[Name],
) -> Result<(), AllocError>
    ensures { OnOk result (
        out.new.items
        ≡ out.old.items
        ++ kinds_of (literal_pieces (BodyLiteral.Call negated symbol.now closure args.now))) }
{
    push_flagged(out, negated, Kind::Mark(Mark::Bang))?;
    symbol.push_to(out)?;
    push_flagged(out, closure, Kind::Mark(Mark::Plus))?;
    push_in_parens(out, args)
}

// Appends two names and the mark between them.
fn push_pair(out: &mut Vec<Kind>, left: &Name, mark: Mark, right: &Name) -> Result<(), AllocError>
    ensures { OnOk result (
        out.new.items
        ≡ out.old.items
        ++ kinds_of (name_pieces left.now ++ terminal (Kind.Mark mark) ∷ name_pieces right.now)) }
{
    left.push_to(out)?;
    push_mark(out, mark)?;
    right.push_to(out)
}

impl Production for BodyLiteral {
    ghost pieces = { literal_pieces };

    fn push_to(&self, out: &mut Vec<Kind>) -> Result<(), AllocError> {
        match self {
            BodyLiteral::Call {
                negated,
                symbol,
                closure,
                args,
            } => push_call(out, *negated, symbol, *closure, args.as_slice()),
            BodyLiteral::Same(left, right) => push_pair(out, left, Mark::EqualEqual, right),
            BodyLiteral::Differ(left, right) => push_pair(out, left, Mark::BangEqual, right),
        }
    }
}

pub fn push_predicate(
    out: &mut Vec<Kind>,
    start: PredicateWord,
    name: &Name,
    params: &Items<Param>,
    clauses: &NonEmpty<NonEmpty<BodyLiteral>>,
) -> Result<(), AllocError>
    ensures { OnOk result (
        out.new.items
        ≡ out.old.items ++ kinds_of (predicate_pieces start name.now params.now clauses.now)) }
{
    start.push_to(out)?;
    name.push_to(out)?;
    push_in_parens(out, params.as_slice())?;
    push_mark(out, Mark::Iff)?;
    push_separated(out, Mark::Semicolon, clauses)?;
    push_mark(out, Mark::Dot)
}
