//! What a rule finds where it is broken.

ghost use Rattle.std.specs.Prelude.{◌≡◌};
ghost use Rattle.rf_graph.specs.First.{when};

use rf_graph::Violation;

/// The violation, where it is there.
pub fn when(is_there: bool, violation: Violation) -> Option<Violation>
    ensures { result ≡ when is_there violation }
{
    if is_there { Some(violation) } else { None }
}
