//! The lines of a document one by one.

ghost use Rattle.std.specs.Prelude.{◌≡◌, IfSome, IfNone};
ghost use Rattle.rf_tree.specs.Private.Entries.{IsEntry, line_in, place_after, room_of};
ghost use Rattle.rf_tree.specs.declared.entry.Entry.{Entry as EntryValue};
ghost use Rattle.rf_tree.specs.declared.entry.Place.TheVariants as Place;

use crate::line_fields::read_line;
use crate::{Format, Line};

/// Where the next line of a document stands.
#[derive(Clone, Copy, Debug, PartialEq, Eq)]
pub enum Place {
    /// It is the first one.
    Outside,
    /// It follows the head of this format, and maybe lines of the tree.
    Inside(Format),
    /// It follows the end, where no line may stand.
    AfterEnd,
    /// A bad line was met.
    Bad,
}

/// What a line of a document says.
#[derive(Clone, Copy, Debug, PartialEq, Eq)]
pub enum Entry {
    Head(Format),
    Line(Line),
    End,
}

impl Place {
    /// How many bytes the next line may have, the line feed left out.
    pub fn room(self) -> usize
        ensures { result ≡ room_of self }
    {
        match self {
            Place::Outside | Place::Inside(Format::Two) => 256,
            Place::Inside(Format::One) => 128,
            Place::AfterEnd | Place::Bad => 0,
        }
    }

    /// Where the line after an entry stands.
    pub fn after(self, entry: &Entry) -> Place
        ensures { result ≡ place_after self entry.now }
    {
        match entry {
            Entry::Head(format) => Place::Inside(*format),
            Entry::Line(_) => self,
            Entry::End => Place::AfterEnd,
        }
    }
}

impl Entry {
    /// The line of the tree that it is, if it is one.
    pub fn line(self) -> Option<Line>
        ensures { result ≡ line_in self }
    {
        match self {
            Entry::Line(line) => Some(line),
            _ => None,
        }
    }
}

// The head that is written so.
fn read_head(text: &[u8]) -> Option<Entry>
    ensures found { IfSome result (λ entry. IsEntry Place.Outside text.now entry) }
    ensures none { IfNone result ((entry : EntryValue) → IsEntry Place.Outside text.now entry → ⊥) }
{
    match text {
        b"tree 1" => Some(Entry::Head(Format::One)),
        b"tree 2" => Some(Entry::Head(Format::Two)),
        _ => None,
    }
}

// The line of a tree, or the end, that is written so in a format.
fn read_inside(format: Format, text: &[u8]) -> Option<Entry>
    ensures found { IfSome result (λ entry. IsEntry (Place.Inside format) text.now entry) }
    ensures none { IfNone result ((entry : EntryValue) → IsEntry (Place.Inside format) text.now entry → ⊥) }
{
    if text == b"end".as_slice() {
        return Some(Entry::End);
    }
    let line = read_line(format, text)?;
    Some(Entry::Line(line))
}

/// What the line says that has this text, where an entry so written may stand there.
pub fn read_entry(place: Place, text: &[u8]) -> Option<Entry>
    ensures found { IfSome result (λ entry. IsEntry place text.now entry) }
    ensures none { IfNone result ((entry : EntryValue) → IsEntry place text.now entry → ⊥) }
{
    match place {
        Place::Outside => read_head(text),
        Place::Inside(format) => read_inside(format, text),
        Place::AfterEnd | Place::Bad => None,
    }
}
