//! States whose predicates have values, and that are edited.

use crate::Facts;
use rf_values::{ClassSet, Count, Truth, Tuple};
use std::alloc::{AllocError, Global};

/// A state that tells the values of predicates too.
pub trait View: Facts {
    ghost use Rattle.std.specs.Prelude.{◌≡◌, ◌<◌, All, IfOk, length};
    ghost use Rattle.rf_problem.specs.Parts.{predicate_at};
    ghost use Rattle.rf_state.specs.StateKnown.{value};

    /// The value of a predicate at a tuple of objects. Where memory runs out, the answer is an `AllocError`.
    fn value(&self, alloc: Global, predicate: u32, tuple: Tuple) -> Result<Truth, AllocError>
        requires declared { predicate < length (Self.problem self.now).predicates }
        requires arity { length tuple ≡ (predicate_at (Self.problem self.now).predicates predicate).arity }
        requires objects { All (λ o. o < length (Self.state self.now).objects) tuple }
        ensures { IfOk result (λ v. v ≡ value (Self.problem self.now) (Self.state self.now) predicate tuple) };
}

/// A state that is changed. It stands, beside what it is now, for a list of states that are kept, which
/// its edits leave as it is. The problem never changes. Where memory runs out, the state is as before.
pub trait Edit: View {
    ghost use Rattle.std.specs.Prelude.{◌≡◌, ◌≢◌, ◌<◌, List, Some, length, IfOk, OnErr, OnOk};
    ghost use Rattle.rf_problem.specs.Valid.{IsSmall};
    ghost use Rattle.rf_state.specs.State.{State, fresh_of, kept_to, merged_at, narrowed, object_of};

    ghost kept: { Self → List State };

    /// Merges a truth into what was added of an edge.
    fn merge(&mut self, alloc: Global, r: u32, a: u64, b: u64, v: Truth) -> Result<(), AllocError>
        requires reference { r < length (Self.problem self.old).references }
        requires from { a < length (Self.state self.old).objects }
        requires to { b < length (Self.state self.old).objects }
        ensures problem { Self.problem self.new ≡ Self.problem self.old }
        ensures kept { Self.kept self.new ≡ Self.kept self.old }
        ensures merged { OnOk result (Self.state self.new ≡ merged_at (Self.state self.old) r a b v) }
        ensures unchanged { OnErr result (Self.state self.new ≡ Self.state self.old) };

    /// Leaves an object those of its numbers of nodes that a count allows too. The ends of that count are at most the
    /// greatest number of a problem text, as those of each object's own count are.
    fn narrow(&mut self, alloc: Global, o: u64, count: Count) -> Result<(), AllocError>
        requires object { o < length (Self.state self.old).objects }
        requires small { IsSmall count }
        ensures problem { Self.problem self.new ≡ Self.problem self.old }
        ensures kept { Self.kept self.new ≡ Self.kept self.old }
        ensures narrowed { OnOk result (Self.state self.new ≡ narrowed (Self.state self.old) o count) }
        ensures unchanged { OnErr result (Self.state self.new ≡ Self.state self.old) };

    /// Leaves an object those of its candidates that are in a set.
    fn keep(&mut self, alloc: Global, o: u64, set: ClassSet) -> Result<(), AllocError>
        requires { o < length (Self.state self.old).objects }
        ensures problem { Self.problem self.new ≡ Self.problem self.old }
        ensures kept { Self.kept self.new ≡ Self.kept self.old }
        ensures narrowed { OnOk result (Self.state self.new ≡ kept_to (Self.state self.old) o set) }
        ensures unchanged { OnErr result (Self.state self.new ≡ Self.state self.old) };

    /// Makes a fresh object of an object, which stands for one of its nodes and in each added fact in which that one
    /// stands. The answer is its number.
    fn fresh(&mut self, alloc: Global, o: u64) -> Result<u64, AllocError>
        requires object { o < length (Self.state self.old).objects }
        requires node { (object_of (Self.state self.old) o).count.hi ≢ Some 0 }
        ensures problem { Self.problem self.new ≡ Self.problem self.old }
        ensures kept { Self.kept self.new ≡ Self.kept self.old }
        ensures number { IfOk result (λ n. n ≡ length (Self.state self.old).objects) }
        ensures fresh { OnOk result (Self.state self.new ≡ fresh_of (Self.state self.old) o) }
        ensures unchanged { OnErr result (Self.state self.new ≡ Self.state self.old) };
}
