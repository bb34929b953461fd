//! The few numbers that a fact speaks of.

ghost use Rattle.std.specs.Prelude.{◌≡◌, ◌<◌, ◌≤◌, ◌++◌, ◌∷◌, [], Some, length, nat_eq, refl};
ghost use Rattle.std.specs.Cmp.{partial_equiv_from_equiv};
ghost use Rattle.std.specs.Cmp.Lexicographic.{pointwise, nat_list_cmp_total, nat_list_eq_equiv, slice_cmp, texts_po, texts_ties};
ghost use Rattle.std.specs.Ordering.{nat_cmp};

use std::cmp::Ordering;
use std::marker::Model;

/// A list of at most four numbers, as the places that a fact speaks of. Tuples are ordered number by
/// number, where the first that differs decides.
#[derive(Clone, Copy, Debug)]
pub struct Tuple {
    cells: [u64; 4],
    used: usize,
}

impl Model for Tuple {
    ghost use Rattle.std.specs.Prelude.{List, ℕ, length, take};
    ghost use Rattle.std.proofs.Common.{sym};
    ghost use Rattle.rf_values.specs.Tuple.{padded, IsPadded, length-take-padded};

    ghost Value = { List ℕ };

    ghost view = { λ t. take t.used t.cells };

    ghost invariant = { λ t. IsPadded 4 t.cells t.used };

    ghost inverse = { λ xs. record { cells = padded 4 xs; used = length xs } };

    ghost inverse_ok = { λ a h. λ i. record { cells = sym h.zeros i; used = length-take-padded 4 a.cells a.used h i } };
}

impl PartialEq for Tuple {
    ghost eq = { pointwise nat_eq };

    ghost laws = { partial_equiv_from_equiv nat_list_eq_equiv };

    fn eq(&self, other: &Tuple) -> bool {
        self.as_slice() == other.as_slice()
    }
}

impl Eq for Tuple {
    ghost laws = { nat_list_eq_equiv };
}

impl PartialOrd for Tuple {
    ghost partial_cmp = { λ t u. Some (slice_cmp nat_cmp t u) };

    ghost laws = { texts_po };

    fn partial_cmp(&self, other: &Tuple) -> Option<Ordering> {
        Some(self.cmp(other))
    }
}

impl Ord for Tuple {
    ghost cmp = { slice_cmp nat_cmp };

    ghost total = { nat_list_cmp_total };

    ghost matches_partial_cmp = { λ t u. refl };

    ghost matches_eq = { texts_ties };

    fn cmp(&self, other: &Tuple) -> Ordering {
        self.as_slice().cmp(other.as_slice())
    }
}

impl Tuple {
    /// The tuple of these numbers.
    pub fn of(items: &[u64]) -> Tuple
        requires { length items.now ≤ 4 }
        ensures { result ≡ items.now }
    {
        let mut cells = [0; 4];
        cells[..items.len()].copy_from_slice(items);
        Tuple {
            cells,
            used: items.len(),
        }
    }

    /// The numbers, in order.
    pub fn as_slice(&self) -> &[u64]
        ensures items { result.now ≡ self.now }
        ensures short { length self.now ≤ 4 }
    {
        &self.cells[..self.used]
    }

    /// The tuple with one number more.
    pub fn with(&self, x: u64) -> Tuple
        requires { length self.now < 4 }
        ensures { result ≡ self.now ++ x ∷ [] }
    {
        let items = self.as_slice();
        let mut cells = [0; 4];
        cells[..items.len()].copy_from_slice(items);
        cells[items.len()] = x;
        Tuple::of(&cells[..items.len() + 1])
    }
}
