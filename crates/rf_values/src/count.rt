//! How many nodes there may be.

ghost use Rattle.std.specs.Prelude.{◌≡◌};
ghost use Rattle.rf_values.specs.Count.{lesser_end, meet, contains, is_single, less_one};
ghost use Rattle.rf_values.specs.Count.{MeetContainsCommon, SingleIsOneToOne, LessOneContainsRest};

use rf_finite::within;

/// How many nodes there may be: at least `lo` and, where there is an upper end, at most `hi`.
#[derive(Clone, Copy, Debug, PartialEq, Eq)]
pub struct Count {
    pub lo: u64,
    /// None is unbounded.
    pub hi: Option<u64>,
}

fn lesser_end(a: Option<u64>, b: Option<u64>) -> Option<u64>
    ensures { result ≡ lesser_end a b }
{
    match (a, b) {
        (Some(x), Some(y)) => Some(x.min(y)),
        (None, end) => end,
        (end, None) => end,
    }
}

impl Count {
    /// The numbers that both allow. There may be none: then `lo` is above `hi`.
    pub fn meet(self, other: Count) -> Count
        ensures { result ≡ meet self other }
    {
        Count {
            lo: self.lo.max(other.lo),
            hi: lesser_end(self.hi, other.hi),
        }
    }

    /// Whether there may be `n` nodes.
    pub fn contains(self, n: u64) -> bool
        ensures { result ≡ contains self n }
    {
        self.lo <= n && within(n, self.hi)
    }

    /// Whether there is exactly one node, come what may.
    pub fn is_single(self) -> bool
        ensures { result ≡ is_single self }
    {
        self.lo == 1 && self.hi == Some(1)
    }

    /// How many nodes there may still be once one is made: each finite end one less, and none
    /// below 0.
    pub fn less_one(self) -> Count
        ensures { result ≡ less_one self }
    {
        Count {
            lo: self.lo.saturating_sub(1),
            hi: self.hi.map(|end| end.saturating_sub(1)),
        }
    }
}

/// What the calls on counts mean for the numbers that a count contains.
pub fn count_law()
    ensures meet { MeetContainsCommon }
    ensures single { SingleIsOneToOne }
    ensures less_one { LessOneContainsRest }
{}
