ghost use Rattle.rf_syntax.specs.Assertion.{arg_pieces, assertion_pieces, atom_pieces, value_pieces};

use super::parts::{push_mark, push_word};
use super::predicates::push_in_parens;
use super::production::Production;
use crate::{Arg, AssertionForm, AtomForm, ValueWord};
use rf_lexer::{Keyword, Kind, Mark};
use std::alloc::AllocError;

impl Production for Arg {
    ghost pieces = { arg_pieces };

    fn push_to(&self, out: &mut Vec<Kind>) -> Result<(), AllocError> {
        match self {
            Arg::Star => push_mark(out, Mark::Star),
            Arg::Symbol(symbol) => symbol.push_to(out),
        }
    }
}

impl Production for AtomForm {
    ghost pieces = { atom_pieces };

    fn push_to(&self, out: &mut Vec<Kind>) -> Result<(), AllocError> {
        self.symbol.push_to(out)?;
        push_in_parens(out, self.args.as_slice())
    }
}

impl Production for ValueWord {
    ghost pieces = { value_pieces };

    fn push_to(&self, out: &mut Vec<Kind>) -> Result<(), AllocError> {
        match *self {
            ValueWord::True => push_word(out, Keyword::True),
            ValueWord::False => push_word(out, Keyword::False),
            ValueWord::Unknown => push_word(out, Keyword::Unknown),
            ValueWord::Error => push_word(out, Keyword::Error),
        }
    }
}

impl Production for AssertionForm {
    ghost pieces = { assertion_pieces };

    fn push_to(&self, out: &mut Vec<Kind>) -> Result<(), AllocError> {
        match self {
            AssertionForm::Plain(atom) => atom.push_to(out),
            AssertionForm::Not(atom) => {
                push_mark(out, Mark::Bang)?;
                atom.push_to(out)
            }
            AssertionForm::Maybe(atom) => {
                push_mark(out, Mark::Question)?;
                atom.push_to(out)
            }
            AssertionForm::Valued(atom, value) => {
                atom.push_to(out)?;
                push_mark(out, Mark::Colon)?;
                value.push_to(out)
            }
        }
    }
}
