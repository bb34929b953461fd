//! The spelling of a tree: for each production a function that appends its kinds. Where memory runs
//! out, a part of them may have been appended.

ghost use Rattle.std.specs.Prelude.{◌≡◌, IfOk};
ghost use Rattle.rf_syntax.specs.Statement.{spelling_of};

use crate::Ast;
use parts::push_each;
use rf_lexer::Kind;
use std::alloc::{AllocError, Global};

mod assertions;
mod classes;
mod enums;
mod names;
mod parts;
mod predicates;
mod production;
mod ranges;
mod statements;

/// The kinds of the tokens of a text with this tree, in order.
pub fn spelling(alloc: Global, ast: &Ast) -> Result<Vec<Kind>, AllocError>
    ensures { IfOk result (λ kinds. kinds.items ≡ spelling_of ast.now) }
{
    let mut kinds = Vec::new(alloc);
    push_each(&mut kinds, ast.statements.as_slice())?;
    Ok(kinds)
}
