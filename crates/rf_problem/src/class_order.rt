//! What the classes of a problem are to each other.

ghost use Rattle.std.specs.Prelude.{◌≡◌, ◌<◌, ℕ, length};
ghost use Rattle.std.specs.FinSet.{contains};
ghost use Rattle.rf_problem.specs.Classes.{is_below};
ghost use Rattle.rf_problem.specs.Contained.{is_concrete_below, is_contained, is_contained_class};

use crate::Problem;
use rf_values::ClassSet;

impl Problem {
    /// Whether class `c` is class `d` or extends it, directly or through others.
    pub fn is_below(&self, c: u32, d: u32) -> bool
        requires { d < length self.now.classes }
        ensures { result ≡ is_below self.now.classes c d }
    {
        self.classes.below(d).has(c)
    }

    /// The classes below class `d` that nodes may have.
    pub fn concrete_below(&self, d: u32) -> ClassSet
        requires { d < length self.now.classes }
        ensures { (c : ℕ) → contains result c ≡ is_concrete_below self.now d c }
    {
        self.classes.concrete().both(self.classes.below(d))
    }

    /// The classes that are below the target of some reference that contains.
    pub fn contained_classes(&self) -> ClassSet
        ensures { (c : ℕ) → contains result c ≡ is_contained_class self.now c }
    {
        let mut contained = ClassSet::empty();
        for reference in self.references.iter() {
            if reference.kind.is_contains() {
                contained = contained.either(self.classes.below(reference.target));
            }
        }
        contained
    }

    /// Those of them that nodes may have.
    pub fn contained(&self) -> ClassSet
        ensures { (c : ℕ) → contains result c ≡ is_contained self.now c }
    {
        self.classes.concrete().both(self.contained_classes())
    }
}
