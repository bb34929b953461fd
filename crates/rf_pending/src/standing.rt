//! Which objects at the other ends of edges count.

ghost use Rattle.std.specs.Prelude.{◌≡◌};
ghost use Rattle.rf_pending.specs.Touching.{stands};

use rf_values::Truth;

/// Where an object at the other end of an edge counts for the rules of a row.
#[derive(Clone, Copy, Debug, PartialEq, Eq)]
pub enum Standing {
    /// Where the edge has to be there.
    Must,
    /// Where it can be there.
    May,
}

impl Standing {
    /// Whether it counts where this is known of the edge.
    pub fn counts(self, truth: Truth) -> bool
        ensures { result ≡ stands self truth }
    {
        match self {
            Standing::Must => truth.must(),
            Standing::May => truth.may(),
        }
    }
}
