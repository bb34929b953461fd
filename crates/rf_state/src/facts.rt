//! What is read of a state.

use rf_evaluate::Elements;
use rf_problem::Problem;
use rf_values::{ClassSet, Count, Truth};

/// A state of a problem, as it is read. Each call takes constant time or a few look-ups.
pub trait Facts {
    ghost use Rattle.std.specs.Prelude.{◌≡◌, ◌<◌, ℕ, length, false, true};
    ghost use Rattle.rf_values.specs.declared.truth.Truth.TheVariants.{False};
    ghost use Rattle.rf_problem.specs.Valid.{IsSmall};
    ghost use Rattle.rf_problem.specs.declared.problem.Problem.{Problem};
    ghost use Rattle.rf_evaluate.specs.Elements.{AreBelow, includes};
    ghost use Rattle.rf_state.specs.State.{AreDeclared, State, fact, object_of};

    ghost problem: { Self → Problem };

    ghost state: { Self → State };

    /// The problem.
    fn problem(&self) -> &Problem
        ensures { result.now ≡ problem self.now };

    /// How many objects there are.
    fn objects(&self) -> u64
        ensures { result ≡ length (state self.now).objects };

    /// The number of the problem's object that an object comes from.
    fn origin(&self, o: u64) -> u64
        requires { o < length (state self.now).objects }
        ensures { result ≡ (object_of (state self.now) o).origin };

    /// How many nodes an object stands for. The ends of the count are at most the greatest number of a problem text, so that
    /// a sum over all objects fits a `u128`.
    fn count(&self, o: u64) -> Count
        requires { o < length (state self.now).objects }
        ensures count { result ≡ (object_of (state self.now) o).count }
        ensures small { IsSmall result };

    /// The classes that its nodes may have, which are classes of the problem.
    fn candidates(&self, o: u64) -> ClassSet
        requires { o < length (state self.now).objects }
        ensures candidates { result ≡ (object_of (state self.now) o).candidates }
        ensures declared { AreDeclared (problem self.now) result };

    /// What is known of an edge of a reference from object `a` to object `b`.
    fn fact(&self, r: u32, a: u64, b: u64) -> Truth
        requires reference { r < length (problem self.now).references }
        requires from { a < length (state self.now).objects }
        requires to { b < length (state self.now).objects }
        ensures { result ≡ fact (problem self.now) (state self.now) r a b };

    /// The objects that come from an object of the problem, perhaps among others.
    fn from_origin(&self, origin: u64) -> Elements<'_>
        ensures complete { (o : ℕ) → o < length (state self.now).objects → (object_of (state self.now) o).origin ≡ origin → includes result o ≡ true }
        ensures below { AreBelow (length (state self.now).objects) result };

    /// The objects to which an edge of a reference may lead from an object, perhaps among others: of each
    /// other object it is known that none leads there. They are few where assertions say that there are no
    /// edges but those that are named.
    fn ends_from(&self, r: u32, a: u64) -> Elements<'_>
        requires reference { r < length (problem self.now).references }
        requires from { a < length (state self.now).objects }
        ensures complete { (b : ℕ) → b < length (state self.now).objects → includes result b ≡ false → fact (problem self.now) (state self.now) r a b ≡ False }
        ensures below { AreBelow (length (state self.now).objects) result };

    /// The objects from which an edge of a reference may lead to an object, perhaps among others.
    fn ends_into(&self, r: u32, b: u64) -> Elements<'_>
        requires reference { r < length (problem self.now).references }
        requires to { b < length (state self.now).objects }
        ensures complete { (a : ℕ) → a < length (state self.now).objects → includes result a ≡ false → fact (problem self.now) (state self.now) r a b ≡ False }
        ensures below { AreBelow (length (state self.now).objects) result };
}
