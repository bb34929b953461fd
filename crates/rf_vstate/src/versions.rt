//! States that are edited, kept, and gone back to.

use rf_state::Edit;
use std::alloc::AllocError;

/// A state that can be kept as it is now, and gone back to. The states that are kept are those of the `Edit`,
/// the first at place 0. The problem never changes.
pub trait Versions: Edit {
    ghost use Rattle.std.specs.Prelude.{◌≡◌, ◌<◌, ◌+◌, ◌++◌, ◌∷◌, [], length, take, slice_get, IfOk, IfSome, OnErr, OnOk};

    /// Keeps the state, and answers its place. Where memory runs out, no state more is kept.
    fn commit(&mut self) -> Result<u64, AllocError>
        ensures problem { Self.problem self.new ≡ Self.problem self.old }
        ensures state { Self.state self.new ≡ Self.state self.old }
        ensures place { IfOk result (λ v. v ≡ length (Self.kept self.old)) }
        ensures kept { OnOk result (Self.kept self.new ≡ Self.kept self.old ++ Self.state self.old ∷ []) }
        ensures unchanged { OnErr result (Self.kept self.new ≡ Self.kept self.old) };

    /// Goes back to a state that is kept.
    fn restore(&mut self, v: u64)
        requires { v < length (Self.kept self.old) }
        ensures problem { Self.problem self.new ≡ Self.problem self.old }
        ensures state { IfSome (slice_get (Self.kept self.old) v) (λ s. Self.state self.new ≡ s) }
        ensures kept { Self.kept self.new ≡ Self.kept self.old };

    /// Goes back to a state that is kept, and forgets those that were kept after it.
    fn prune(&mut self, v: u64)
        requires { v < length (Self.kept self.old) }
        ensures problem { Self.problem self.new ≡ Self.problem self.old }
        ensures state { IfSome (slice_get (Self.kept self.old) v) (λ s. Self.state self.new ≡ s) }
        ensures kept { Self.kept self.new ≡ take (v + 1) (Self.kept self.old) };

    /// How many states are kept.
    fn kept(&self) -> u64
        ensures { result ≡ length (Self.kept self.now) };
}
