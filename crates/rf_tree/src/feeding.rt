//! Reading a tree document piece by piece.

ghost use Rattle.std.specs.Prelude.{◌≡◌, ◌≤◌, ◌+◌, ◌++◌, ◌^◌, ◌↔◌, [], ℕ, List, length, IfErr, IfOk, IsOk, OnErr, OnOk};
ghost use Rattle.rf_tree.specs.Document.{IsTreeDocument};
ghost use Rattle.rf_tree.specs.Reading.{IsBadTreeLine, MeetsBadLine};
ghost use Rattle.rf_tree.specs.Readers.{HasRead, fed};
ghost use Rattle.rf_tree.specs.declared.line.Line.{Line as LineValue};

use crate::entry::Place;
use crate::line_reader::LineReader;
use crate::{Line, TreeError, TreeReader};
use std::alloc::Global;

impl TreeReader {
    /// A reader that has read nothing.
    pub fn new() -> TreeReader
        ensures read { HasRead result [] [] }
        ensures fed { fed result ≡ 0 }
    {
        TreeReader {
            lines: LineReader::new(),
            fed: 0,
        }
    }

    /// Reads the next piece of a document, which may be empty, and gives the lines of the tree that are complete
    /// with it. The call that meets a bad line gives those before it and passes over what follows; each later call
    /// answers `BadLine`. A line is met as bad when its line feed is read, or at the first byte past the limit, and
    /// what follows the end of the document at its first byte.
    pub fn feed(&mut self, alloc: Global, piece: &[u8]) -> Result<Vec<Line>, TreeError>
        requires few { fed self.old + length piece.now ≤ 2 ^ 62 }
        ensures fed { OnOk result (fed self.new ≡ fed self.old + length piece.now) }
        ensures fewer { IfOk result (λ more. length more.items ≤ length piece.now) }
        ensures read { IfOk result (λ more. (bytes : List ℕ) (lines : List LineValue) → HasRead self.old bytes lines → HasRead self.new (bytes ++ piece.now) (lines ++ more.items)) }
        ensures bad { (n : ℕ) (bytes : List ℕ) (lines : List LineValue) → HasRead self.old bytes lines → result ≡ Err (TreeError.BadLine n) → MeetsBadLine bytes n }
        ensures met { (n : ℕ) (bytes : List ℕ) (lines : List LineValue) → HasRead self.old bytes lines → MeetsBadLine bytes n → result ≡ Err (TreeError.BadLine n) }
        ensures unchanged { OnErr result (self.new ≡ self.old) }
    {
        if self.lines.is_stuck() {
            return Err(TreeError::BadLine(self.lines.number));
        }
        let mut lines = self.lines.copied();
        let more = lines.read_piece(alloc, piece)?;
        *self = TreeReader {
            lines,
            fed: self.fed + piece.len() as u64,
        };
        Ok(more)
    }

    /// Whether the bytes that were fed are a whole document; else the number, from 1, of the first line that no tree
    /// document has there. A line that is missing counts.
    pub fn finish(&self) -> Result<(), u64>
        ensures ok { (bytes : List ℕ) (lines : List LineValue) → HasRead self.now bytes lines → IsOk result → IsTreeDocument lines bytes }
        ensures whole { (bytes : List ℕ) (lines other : List LineValue) → HasRead self.now bytes lines → IsTreeDocument other bytes → IsOk result }
        ensures err { (bytes : List ℕ) (lines : List LineValue) → HasRead self.now bytes lines → IfErr result (λ n. IsBadTreeLine bytes n) }
        ensures bad { (n : ℕ) (bytes : List ℕ) (lines : List LineValue) → HasRead self.now bytes lines → IsBadTreeLine bytes n → result ≡ Err n }
    {
        match self.lines.place {
            Place::AfterEnd => Ok(()),
            _ => Err(self.lines.number),
        }
    }
}
