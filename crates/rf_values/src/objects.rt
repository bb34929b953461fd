//! The objects that are chosen for the variables of a clause.

ghost use Rattle.std.specs.Prelude.{◌≡◌, ◌≤◌, length, nat_eq};
ghost use Rattle.std.specs.Cmp.{partial_equiv_from_equiv};
ghost use Rattle.std.specs.Cmp.Lexicographic.{pointwise, nat_list_eq_equiv};

use std::marker::Model;

/// A list of at most eight numbers, as those of the objects that stand for the variables of a clause.
#[derive(Clone, Copy, Debug)]
pub struct Objects {
    cells: [u64; 8],
    used: usize,
}

impl Model for Objects {
    ghost use Rattle.std.specs.Prelude.{List, ℕ, length, take};
    ghost use Rattle.std.proofs.Common.{sym};
    ghost use Rattle.rf_values.specs.Tuple.{padded, IsPadded, length-take-padded};

    ghost Value = { List ℕ };

    ghost view = { λ t. take t.used t.cells };

    ghost invariant = { λ t. IsPadded 8 t.cells t.used };

    ghost inverse = { λ xs. record { cells = padded 8 xs; used = length xs } };

    ghost inverse_ok = { λ a h. λ i. record { cells = sym h.zeros i; used = length-take-padded 8 a.cells a.used h i } };
}

impl PartialEq for Objects {
    ghost eq = { pointwise nat_eq };

    ghost laws = { partial_equiv_from_equiv nat_list_eq_equiv };

    fn eq(&self, other: &Objects) -> bool {
        self.as_slice() == other.as_slice()
    }
}

impl Eq for Objects {
    ghost laws = { nat_list_eq_equiv };
}

impl Objects {
    /// The list of these numbers.
    pub fn of(items: &[u64]) -> Objects
        requires { length items.now ≤ 8 }
        ensures { result ≡ items.now }
    {
        let mut cells = [0; 8];
        cells[..items.len()].copy_from_slice(items);
        Objects {
            cells,
            used: items.len(),
        }
    }

    /// The numbers, in order.
    pub fn as_slice(&self) -> &[u64]
        ensures items { result.now ≡ self.now }
        ensures short { length self.now ≤ 8 }
    {
        &self.cells[..self.used]
    }
}
