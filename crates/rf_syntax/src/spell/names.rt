ghost use Rattle.std.specs.Prelude.{◌≡◌, IfOk};
ghost use Rattle.rf_syntax.specs.Name.{kind_of_name, name_pieces, symbol_pieces};

use super::parts::{push_kind, push_optional_after};
use super::production::Production;
use crate::{Name, SymbolName};
use rf_lexer::{Kind, Mark};
use std::alloc::AllocError;

fn kind_of(name: &Name) -> Result<Kind, AllocError>
    ensures { IfOk result (λ kind. kind ≡ kind_of_name name.now) }
{
    let text = name.text.clone()?;
    if name.quoted {
        Ok(Kind::Quoted(text))
    } else {
        Ok(Kind::Name(text))
    }
}

impl Production for Name {
    ghost pieces = { name_pieces };

    fn push_to(&self, out: &mut Vec<Kind>) -> Result<(), AllocError> {
        push_kind(out, kind_of(self)?)
    }
}

impl Production for SymbolName {
    ghost pieces = { symbol_pieces };

    fn push_to(&self, out: &mut Vec<Kind>) -> Result<(), AllocError> {
        self.name.push_to(out)?;
        push_optional_after(out, Kind::Mark(Mark::ColonColon), &self.member)
    }
}
