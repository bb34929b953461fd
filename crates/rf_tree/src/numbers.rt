//! The numbers of a line.

ghost use Rattle.std.specs.Prelude.{◌≡◌, ◌≤◌, ◌<◌, ◌+◌, ◌^◌, All, nat_le, [], ◌∷◌, ◌++◌, length};

use std::marker::Model;

/// How many numbers a line has at the most.
const MOST_NUMBERS: usize = 11;

/// A list of at most eleven numbers.
#[derive(Debug, Drop)]
pub struct Numbers {
    cells: [u64; 11],
    used: usize,
}

impl Model for Numbers {
    ghost use Rattle.std.specs.Prelude.{◌≤◌, List, ℕ, take};

    ghost Value = { List ℕ };

    ghost view = { λ n. take n.used n.cells };

    ghost invariant = { λ n. n.used ≤ 11 };
}

impl Numbers {
    /// No number.
    pub fn new() -> Numbers
        ensures { result ≡ [] }
    {
        Numbers {
            cells: [0; 11],
            used: 0,
        }
    }

    /// These numbers.
    pub fn of(items: &[u64]) -> Numbers
        requires { length items.now ≤ 11 }
        ensures { result ≡ items.now }
    {
        let mut cells = [0; 11];
        cells[..items.len()].copy_from_slice(items);
        Numbers {
            cells,
            used: items.len(),
        }
    }

    /// The numbers, in order.
    pub fn as_slice(&self) -> &[u64]
        ensures items { result.now ≡ self.now }
        ensures short { length self.now ≤ 11 }
    {
        &self.cells[..self.used]
    }

    /// Whether there are eleven.
    pub fn is_full(&self) -> bool
        ensures { result ≡ nat_le 11 (length self.now) }
    {
        self.used >= MOST_NUMBERS
    }

    /// Appends a number.
    pub fn push(&mut self, number: u64)
        requires { length self.old < 11 }
        ensures { self.new ≡ self.old ++ number ∷ [] }
    {
        self.cells[self.used] = number;
        self.used += 1;
    }

    /// Appends numbers.
    pub fn append(&mut self, items: &[u64])
        requires { length self.old + length items.now ≤ 11 }
        ensures appended { self.new ≡ self.old ++ items.now }
        ensures long { All (λ n. n < 2 ^ 64) items.now }
    {
        let end = self.used + items.len();
        self.cells[self.used..end].copy_from_slice(items);
        self.used = end;
    }
}
