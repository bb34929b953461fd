ghost use Rattle.rf_syntax.specs.Range.{mult_pieces, range_pieces, upper_pieces};

use super::parts::{push_kind, push_mark, push_optional};
use super::production::Production;
use crate::{Mult, Range, Upper};
use rf_lexer::{Kind, Mark};
use std::alloc::AllocError;

impl Production for Upper {
    ghost pieces = { upper_pieces };

    fn push_to(&self, out: &mut Vec<Kind>) -> Result<(), AllocError> {
        match *self {
            Upper::Absent => Ok(()),
            Upper::Star => {
                push_mark(out, Mark::DotDot)?;
                push_mark(out, Mark::Star)
            }
            Upper::Number(number) => {
                push_mark(out, Mark::DotDot)?;
                push_kind(out, Kind::Number(number))
            }
        }
    }
}

impl Production for Range {
    ghost pieces = { range_pieces };

    fn push_to(&self, out: &mut Vec<Kind>) -> Result<(), AllocError> {
        push_kind(out, Kind::Number(self.lo))?;
        self.hi.push_to(out)
    }
}

impl Production for Mult {
    ghost pieces = { mult_pieces };

    fn push_to(&self, out: &mut Vec<Kind>) -> Result<(), AllocError> {
        push_mark(out, Mark::LeftBracket)?;
        push_optional(out, &self.range)?;
        push_mark(out, Mark::RightBracket)
    }
}
