//! The lines of a document whose bytes come piece by piece.

ghost use Rattle.std.specs.Prelude.{◌≡◌, ◌≤◌, ◌<◌, ◌+◌, ◌^◌, ◌++◌, ◌∷◌, [], ◌↔◌, IsTrue, length, option_to_list, IfOk, IfSome, IfNone, OnOk};
ghost use Rattle.rf_text.specs.Line.{NoBreak};
ghost use Rattle.rf_tree.specs.Private.Entries.{IsEntry, line_in, place_after, room_of};
ghost use Rattle.rf_tree.specs.Private.Readers.{Follows, ReadsMore};
ghost use Rattle.rf_tree.specs.declared.entry.Entry.{Entry as EntryValue};
ghost use Rattle.rf_tree.specs.declared.entry.Place.TheVariants as Place;

use crate::Line;
use crate::entry::{Entry, Place, read_entry};
use crate::part::Part;
use rf_text::first_line;
use std::alloc::{AllocError, Global};

/// Where the next line stands, its number, and what was read of it.
#[derive(Debug, Drop)]
pub struct LineReader {
    pub place: Place,
    pub number: u64,
    pub part: Part,
}

// What the line says that is begun by these bytes and ended by this text, where an entry so written may stand
// there.
fn read_joined(place: Place, part: &Part, text: &[u8]) -> Option<Entry>
    requires { length part.now + length text.now ≤ 256 }
    ensures found { IfSome result (λ entry. IsEntry place (part.now ++ text.now) entry) }
    ensures none { IfNone result ((entry : EntryValue) → IsEntry place (part.now ++ text.now) entry → ⊥) }
{
    if part.len() == 0 {
        return read_entry(place, text);
    }
    let mut whole = part.copied();
    whole.append(text);
    read_entry(place, whole.as_slice())
}

// Appends a line, if there is one.
fn push_line(lines: &mut Vec<Line>, line: Option<Line>) -> Result<(), AllocError>
    ensures { OnOk result (lines.new.items ≡ lines.old.items ++ option_to_list line) }
{
    if let Some(line) = line {
        lines.extend_from_slice(&[line])?;
    }
    Ok(())
}

impl LineReader {
    /// A reader that has read nothing.
    pub fn new() -> LineReader
        ensures follows { Follows result [] [] }
        ensures number { result.number ≡ 1 }
    {
        LineReader {
            place: Place::Outside,
            number: 1,
            part: Part::new(),
        }
    }

    /// The same reader again.
    pub fn copied(&self) -> LineReader
        ensures { result ≡ self.now }
    {
        LineReader {
            place: self.place,
            number: self.number,
            part: self.part.copied(),
        }
    }

    /// Whether a bad line was met.
    pub fn is_stuck(&self) -> bool
        ensures { IsTrue result ↔ (self.now.place ≡ Place.Bad) }
    {
        self.place == Place::Bad
    }

    // Reads the text that ends a line, and gives the line of the tree that it is.
    fn end_line(&mut self, text: &[u8]) -> Option<Line>
        requires count { self.old.number < 2 ^ 63 }
        requires whole { NoBreak text.now }
        ensures count { self.new.number ≤ self.old.number + 1 }
        ensures read { ReadsMore self.old self.new (text.now ++ 10 ∷ []) (option_to_list result) }
    {
        if self.part.len() + text.len() > self.place.room() {
            self.place = Place::Bad;
            return None;
        }
        let read = read_joined(self.place, &self.part, text);
        self.part.clear();
        let Some(entry) = read else {
            self.place = Place::Bad;
            return None;
        };
        self.number += 1;
        self.place = self.place.after(&entry);
        entry.line()
    }

    // Keeps what stands after the last line feed of a piece.
    fn keep(&mut self, text: &[u8])
        requires { NoBreak text.now }
        ensures count { self.new.number ≡ self.old.number }
        ensures read { ReadsMore self.old self.new text.now [] }
    {
        if self.part.len() + text.len() > self.place.room() {
            self.place = Place::Bad;
        } else {
            self.part.append(text);
        }
    }

    /// Reads a piece, and gives the lines of the tree that are complete with it. Where memory runs out the reader
    /// is in no known state.
    pub fn read_piece(&mut self, alloc: Global, piece: &[u8]) -> Result<Vec<Line>, AllocError>
        requires count { self.old.number + length piece.now ≤ 2 ^ 63 }
        ensures count { IfOk result (λ _. self.new.number ≤ self.old.number + length piece.now) }
        ensures few { IfOk result (λ more. length more.items ≤ length piece.now) }
        ensures read { IfOk result (λ more. ReadsMore self.old self.new piece.now more.items) }
    {
        let mut lines = Vec::new(alloc);
        let mut rest = piece;
        while let Some((text, after)) = first_line(rest) {
            let line = self.end_line(text);
            push_line(&mut lines, line)?;
            rest = after;
        }
        self.keep(rest);
        Ok(lines)
    }
}
