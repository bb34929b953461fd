ghost use Rattle.std.specs.Prelude.{◌≡◌, ◌++◌, OnOk};
ghost use Rattle.rf_syntax.specs.Piece.{kinds_of};
ghost use Rattle.rf_syntax.specs.Enum.{enum_body_pieces, enum_pieces};

use super::parts::{push_mark, push_separated_or_none, push_word};
use super::production::Production;
use crate::Name;
use rf_lexer::{Keyword, Kind, Mark};
use rf_text::Items;
use std::alloc::AllocError;

// Appends the full stop or the literals between braces.
fn push_literals(out: &mut Vec<Kind>, literals: &Option<Items<Name>>) -> Result<(), AllocError>
    ensures { OnOk result (
        out.new.items ≡ out.old.items ++ kinds_of (enum_body_pieces literals.now)) }
{
    match literals {
        None => push_mark(out, Mark::Dot),
        Some(literals) => {
            push_mark(out, Mark::LeftBrace)?;
            push_separated_or_none(out, Mark::Comma, literals.as_slice())?;
            push_mark(out, Mark::RightBrace)
        }
    }
}

pub fn push_enum(
    out: &mut Vec<Kind>,
    name: &Name,
    literals: &Option<Items<Name>>,
) -> Result<(), AllocError>
    ensures { OnOk result (
        out.new.items ≡ out.old.items ++ kinds_of (enum_pieces name.now literals.now)) }
{
    push_word(out, Keyword::Enum)?;
    name.push_to(out)?;
    push_literals(out, literals)
}
