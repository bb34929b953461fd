ghost use Rattle.std.specs.Prelude.{◌≡◌, ◌++◌, ◌∷◌, [], OnOk};
ghost use Rattle.std.specs.List.{flat_map};
ghost use Rattle.rf_syntax.specs.Parts.{each_after, flagged, optional, optional_after, separated, separated_or_none};
ghost use Rattle.rf_syntax.specs.Piece.{kinds_of};
ghost use Rattle.rf_syntax.specs.Terminals.{comma};

use super::production::Production;
use crate::NonEmpty;
use rf_lexer::{Keyword, Kind, Mark};
use std::alloc::AllocError;

pub fn push_kind(out: &mut Vec<Kind>, kind: Kind) -> Result<(), AllocError>
    ensures { OnOk result (out.new.items ≡ out.old.items ++ kind ∷ []) }
{
    out.push(kind)?;
    Ok(())
}

pub fn push_word(out: &mut Vec<Kind>, word: Keyword) -> Result<(), AllocError>
    ensures { OnOk result (out.new.items ≡ out.old.items ++ Kind.Word word ∷ []) }
{
    push_kind(out, Kind::Word(word))
}

pub fn push_mark(out: &mut Vec<Kind>, mark: Mark) -> Result<(), AllocError>
    ensures { OnOk result (out.new.items ≡ out.old.items ++ Kind.Mark mark ∷ []) }
{
    push_kind(out, Kind::Mark(mark))
}

// Appends a kind where a flag is set.
pub fn push_flagged(out: &mut Vec<Kind>, flag: bool, kind: Kind) -> Result<(), AllocError>
    ensures { OnOk result (out.new.items ≡ out.old.items ++ kinds_of (flagged flag kind)) }
{
    if flag { push_kind(out, kind) } else { Ok(()) }
}

pub fn push_optional<T: Production>(out: &mut Vec<Kind>, part: &Option<T>) -> Result<(), AllocError>
    ensures { OnOk result (out.new.items ≡ out.old.items ++ kinds_of (optional T.pieces part.now)) }
{
    match part {
        None => Ok(()),
        Some(part) => part.push_to(out),
    }
}

pub fn push_optional_after<T: Production>(
    out: &mut Vec<Kind>,
    kind: Kind,
    part: &Option<T>,
) -> Result<(), AllocError>
    ensures { OnOk result (
        out.new.items
        ≡ out.old.items ++ kinds_of (optional_after kind T.pieces part.now)) }
{
    match part {
        None => Ok(()),
        Some(part) => {
            push_kind(out, kind)?;
            part.push_to(out)
        }
    }
}

// Appends one part after another.
pub fn push_each<T: Production>(out: &mut Vec<Kind>, parts: &[T]) -> Result<(), AllocError>
    ensures { OnOk result (
        out.new.items
        ≡ out.old.items ++ kinds_of (flat_map T.pieces parts.now)) }
{
    for part in parts {
        part.push_to(out)?;
    }
    Ok(())
}

// Appends the parts one by one, each after the mark.
pub fn push_each_after<T: Production>(
    out: &mut Vec<Kind>,
    mark: Mark,
    parts: &[T],
) -> Result<(), AllocError>
    ensures { OnOk result (
        out.new.items
        ≡ out.old.items ++ kinds_of (each_after (Kind.Mark mark) T.pieces parts.now)) }
{
    for part in parts {
        push_mark(out, mark)?;
        part.push_to(out)?;
    }
    Ok(())
}

pub fn push_separated<T: Production>(
    out: &mut Vec<Kind>,
    mark: Mark,
    parts: &NonEmpty<T>,
) -> Result<(), AllocError>
    ensures { OnOk result (
        out.new.items
        ≡ out.old.items ++ kinds_of (separated (Kind.Mark mark) T.pieces parts.now)) }
{
    parts.first.push_to(out)?;
    push_each_after(out, mark, parts.rest.as_slice())
}

pub fn push_separated_or_none<T: Production>(
    out: &mut Vec<Kind>,
    mark: Mark,
    parts: &[T],
) -> Result<(), AllocError>
    ensures { OnOk result (
        out.new.items
        ≡ out.old.items ++ kinds_of (separated_or_none (Kind.Mark mark) T.pieces parts.now)) }
{
    match parts {
        [] => Ok(()),
        [first, rest @ ..] => {
            first.push_to(out)?;
            push_each_after(out, mark, rest)
        }
    }
}

// Where the grammar has a list of parts as one part, commas are between them.
impl<T: Production> Production for NonEmpty<T> {
    ghost pieces = { separated comma T.pieces };

    fn push_to(&self, out: &mut Vec<Kind>) -> Result<(), AllocError> {
        push_separated(out, Mark::Comma, self)
    }
}
