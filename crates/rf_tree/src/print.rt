//! Printing trees.

ghost use Rattle.std.specs.Prelude.{◌≡◌, ◌++◌, ◌∷◌, [], All, IfOk, OnOk};
ghost use Rattle.rf_tree.specs.Document.{FitsKind, IsTreeDocument, line_text, spaced, tree_document};
ghost use Rattle.rf_tree.specs.Private.Fields.{FitsLine, fields_text, tail_text};
ghost use Rattle.rf_tree.specs.declared.format.Format.TheVariants as Format;

use crate::Line;
use crate::fields::Fields;
use crate::fields_of::fields_of;
use crate::word::Tail;
use rf_text::{Text, push_number};
use std::alloc::{AllocError, Global};

// Appends numbers, each after a space.
fn push_numbers(alloc: Global, out: &mut Text, numbers: &[u64]) -> Result<(), AllocError>
    ensures { OnOk result (out.new ≡ out.old ++ spaced numbers.now) }
{
    for number in numbers {
        out.push_str(" ")?;
        push_number(alloc, out, *number)?;
    }
    Ok(())
}

// Appends the word at the end of a line, if there is one, after a space.
fn push_tail(out: &mut Text, tail: Option<Tail>) -> Result<(), AllocError>
    ensures { OnOk result (out.new ≡ out.old ++ tail_text tail) }
{
    if let Some(tail) = tail {
        out.push_str(" ")?;
        out.push_str(tail.as_str())?;
    }
    Ok(())
}

// Appends a line of fields.
fn push_fields(alloc: Global, out: &mut Text, fields: &Fields) -> Result<(), AllocError>
    ensures { OnOk result (out.new ≡ out.old ++ (fields_text fields.now ++ 10 ∷ [])) }
{
    out.push_str(fields.word.as_str())?;
    push_numbers(alloc, out, fields.numbers.as_slice())?;
    push_tail(out, fields.tail)?;
    out.push_str("\n")
}

// Appends a line of a tree.
fn push_line(alloc: Global, out: &mut Text, line: &Line) -> Result<(), AllocError>
    ensures text { OnOk result (out.new ≡ out.old ++ (line_text line.now ++ 10 ∷ [])) }
    ensures fits { FitsLine line.now }
{
    push_fields(alloc, out, &fields_of(line))
}

/// The document of the lines of a tree, in format 2.
pub fn print_tree(alloc: Global, lines: &[Line]) -> Result<Text, AllocError>
    requires { All FitsKind lines.now }
    ensures text { IfOk result (λ text. text ≡ tree_document Format.Two lines.now) }
    ensures document { IfOk result (λ text. IsTreeDocument lines.now text) }
{
    let mut text = Text::from_str(alloc, "tree 2\n")?;
    for line in lines {
        push_line(alloc, &mut text, line)?;
    }
    text.push_str("end\n")?;
    Ok(text)
}
