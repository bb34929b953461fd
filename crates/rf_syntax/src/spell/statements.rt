ghost use Rattle.std.specs.Prelude.{◌≡◌, ◌++◌, ◌∷◌, [], OnOk};
ghost use Rattle.rf_syntax.specs.Parts.{separated};
ghost use Rattle.rf_syntax.specs.Piece.{kinds_of, terminal};
ghost use Rattle.rf_syntax.specs.Statement.{bound_pieces, item_pieces, statement_pieces};
ghost use Rattle.rf_syntax.specs.Terminals.{comma, dot};

use super::classes::push_class;
use super::enums::push_enum;
use super::parts::{push_flagged, push_mark, push_optional_after, push_word};
use super::predicates::push_predicate;
use super::production::Production;
use crate::{AssertionForm, Bound, Item, NonEmpty, Statement};
use rf_lexer::{Keyword, Kind, Mark};
use std::alloc::AllocError;

impl Production for Item {
    ghost pieces = { item_pieces };

    fn push_to(&self, out: &mut Vec<Kind>) -> Result<(), AllocError> {
        self.name.push_to(out)?;
        push_optional_after(out, Kind::Mark(Mark::Equal), &self.range)
    }
}

impl Production for Bound {
    ghost pieces = { bound_pieces };

    fn push_to(&self, out: &mut Vec<Kind>) -> Result<(), AllocError> {
        self.name.push_to(out)?;
        let mark = if self.only_new {
            Mark::PlusEqual
        } else {
            Mark::Equal
        };
        push_mark(out, mark)?;
        self.range.push_to(out)
    }
}

// Appends a word, a list with commas between its parts, and a full stop.
fn push_list<T: Production>(
    out: &mut Vec<Kind>,
    word: Keyword,
    parts: &NonEmpty<T>,
) -> Result<(), AllocError>
    ensures { OnOk result (
        out.new.items
        ≡ out.old.items
        ++ kinds_of (
        terminal (Kind.Word word) ∷ separated comma T.pieces parts.now ++ terminal dot ∷ [])) }
{
    push_word(out, word)?;
    parts.push_to(out)?;
    push_mark(out, Mark::Dot)
}

fn push_assertion(
    out: &mut Vec<Kind>,
    is_default: bool,
    assertion: &AssertionForm,
) -> Result<(), AllocError>
    ensures { OnOk result (
        out.new.items
        ≡ out.old.items
        ++ kinds_of (statement_pieces (Statement.Assert is_default assertion.now))) }
{
    push_flagged(out, is_default, Kind::Word(Keyword::Default))?;
    assertion.push_to(out)?;
    push_mark(out, Mark::Dot)
}

impl Production for Statement {
    ghost pieces = { statement_pieces };

    fn push_to(&self, out: &mut Vec<Kind>) -> Result<(), AllocError> {
        match self {
            Statement::Class {
                is_abstract,
                name,
                supers,
                body,
            } => push_class(out, *is_abstract, name, supers, body),
            Statement::Enum { name, literals } => push_enum(out, name, literals),
            Statement::Predicate {
                start,
                name,
                params,
                clauses,
            } => push_predicate(out, *start, name, params, clauses),
            Statement::Declare(names) => push_list(out, Keyword::Declare, names),
            Statement::Multi(items) => push_list(out, Keyword::Multi, items),
            Statement::Atoms(names) => push_list(out, Keyword::Atom, names),
            Statement::Scope(bounds) => push_list(out, Keyword::Scope, bounds),
            Statement::Assert {
                is_default,
                assertion,
            } => push_assertion(out, *is_default, assertion),
        }
    }
}
