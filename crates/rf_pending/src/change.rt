//! What is changed by an edit of a state.

ghost use Rattle.std.specs.Prelude.{◌≡◌};
ghost use Rattle.rf_pending.specs.Changes.{is_fresh};

/// What one edit of a state changed.
#[derive(Clone, Copy, Debug, PartialEq, Eq)]
pub enum Change {
    /// What is known of an edge of a reference from one object to another.
    Fact(u32, u64, u64),
    /// How many nodes an object stands for.
    Count(u64),
    /// Which classes its nodes may have.
    Candidates(u64),
    /// The object has a fresh object.
    Fresh(u64),
}

impl Change {
    /// Whether there is an object more.
    pub fn is_fresh(self) -> bool
        ensures { result ≡ is_fresh self }
    {
        matches!(self, Change::Fresh(_))
    }
}
