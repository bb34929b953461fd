//! Whether edges between numbers lead back to where they began.

ghost use Rattle.std.specs.Prelude.{◌≡◌, ◌<◌, ◌≤◌, ◌↔◌, ◌==◌, ◌&&◌, not, ℕ, Bool, true, nat_lt, IsTrue};
ghost use Rattle.std.specs.FinSet.{contains};
ghost use Rattle.rf_finite.specs.Walks.{HasNoCycle};
ghost use Rattle.rf_problem.specs.Cycles.{AreOffCycles, IsWithin, LeadsInto};

use rf_values::ClassSet;

/// Edges between the numbers below a size.
pub trait Edges {
    ghost size: { Self → ℕ };

    ghost edge: { Self → ℕ → ℕ → Bool };

    /// Whether an edge leads from a number to one of these.
    fn leads_into(&self, from: u32, ends: ClassSet) -> bool
        requires { from < size self.now }
        ensures { IsTrue result ↔ LeadsInto (edge self.now) from ends };
}

// All numbers below a size.
fn all_below(size: u32) -> ClassSet
    requires { size ≤ 256 }
    ensures { (x : ℕ) → contains result x ≡ nat_lt x size }
{
    let mut all = ClassSet::empty();
    for number in 0..size {
        all = all.adding(number);
    }
    all
}

fn without_one(set: ClassSet, number: u32) -> ClassSet
    requires { number < 256 }
    ensures { (x : ℕ) → contains result x ≡ (contains set x && not (x == number)) }
{
    set.without(ClassSet::empty().adding(number))
}

// These but for those from which no edge leads to one of them, or to one that was still there when
// their turn came.
fn peeled<E: Edges>(edges: &E, size: u32, left: ClassSet) -> ClassSet
    requires size { size ≡ E.size edges.now }
    requires few { size ≤ 256 }
    requires within { IsWithin left size }
    ensures kept { (x : ℕ) → contains result x ≡ true → contains left x ≡ true }
    ensures led { (x : ℕ) → contains result x ≡ true → LeadsInto (E.edge edges.now) x left }
    ensures off { AreOffCycles (E.edge edges.now) size left → AreOffCycles (E.edge edges.now) size result }
{
    let mut rest = left;
    for number in 0..size {
        if !edges.leads_into(number, rest) {
            rest = without_one(rest, number);
        }
    }
    rest
}

/// Whether no way leads from a number below the size back to it. At most 256 numbers, of whose edges
/// each is looked at once a round, in as many rounds as the longest way has numbers.
pub fn has_no_cycle<E: Edges>(edges: &E, size: u32) -> bool
    requires size { size ≡ E.size edges.now }
    requires few { size ≤ 256 }
    ensures { IsTrue result ↔ HasNoCycle (E.edge edges.now) size }
{
    let mut left = all_below(size);
    for _round in 0..size + 1 {
        if left.is_empty() {
            return true;
        }
        left = peeled(edges, size, left);
    }
    left.is_empty()
}
