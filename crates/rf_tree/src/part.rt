//! What is held of a line that comes in several pieces.

ghost use Rattle.std.specs.Prelude.{◌≡◌, ◌≤◌, ◌+◌, [], ◌++◌, length};

use std::marker::Model;

/// The first bytes of a line, at most 256.
#[derive(Debug, Drop)]
pub struct Part {
    cells: [u8; 256],
    used: usize,
}

impl Model for Part {
    ghost use Rattle.std.specs.Prelude.{◌≤◌, List, ℕ, take};

    ghost Value = { List ℕ };

    ghost view = { λ p. take p.used p.cells };

    ghost invariant = { λ p. p.used ≤ 256 };
}

impl Part {
    /// No byte.
    pub fn new() -> Part
        ensures { result ≡ [] }
    {
        Part {
            cells: [0; 256],
            used: 0,
        }
    }

    /// The same bytes again.
    pub fn copied(&self) -> Part
        ensures { result ≡ self.now }
    {
        Part {
            cells: self.cells,
            used: self.used,
        }
    }

    /// The bytes, in order.
    pub fn as_slice(&self) -> &[u8]
        ensures bytes { result.now ≡ self.now }
        ensures short { length self.now ≤ 256 }
    {
        &self.cells[..self.used]
    }

    /// How many bytes there are.
    pub fn len(&self) -> usize
        ensures count { result ≡ length self.now }
        ensures short { result ≤ 256 }
    {
        self.used
    }

    /// Appends bytes.
    pub fn append(&mut self, bytes: &[u8])
        requires { length self.old + length bytes.now ≤ 256 }
        ensures { self.new ≡ self.old ++ bytes.now }
    {
        let end = self.used + bytes.len();
        self.cells[self.used..end].copy_from_slice(bytes);
        self.used = end;
    }

    /// Lets the bytes go.
    pub fn clear(&mut self)
        ensures { self.new ≡ [] }
    {
        self.used = 0;
    }
}
