ghost use Rattle.std.specs.Prelude.{◌≡◌, None};
ghost use Rattle.rf_problem.specs.Merged.{joined};
ghost use Rattle.rf_problem.specs.Spoken.{join, spoken};

use crate::Assertion;
use rf_values::Truth;

/// What assertions say of a symbol at a tuple of objects.
#[derive(Clone, Copy, Debug, PartialEq, Eq)]
pub struct Heard {
    /// The merge of the ordinary assertions that speak of it, if any does.
    pub ordinary: Option<Truth>,
    /// The merge of the defaults that do, if any does.
    pub default: Option<Truth>,
}

/// The merge of two truths, each of which may be missing.
pub fn joined(a: Option<Truth>, b: Option<Truth>) -> Option<Truth>
    ensures { result ≡ joined a b }
{
    match (a, b) {
        (Some(a), Some(b)) => Some(a.merge(b)),
        (Some(_), None) => a,
        (None, _) => b,
    }
}

impl Heard {
    /// What no assertion says.
    pub fn nothing() -> Heard
        ensures { result ≡ record { ordinary = None; default = None } }
    {
        Heard {
            ordinary: None,
            default: None,
        }
    }

    /// What this and the other say together.
    pub fn join(self, other: Heard) -> Heard
        ensures { result ≡ join self other }
    {
        Heard {
            ordinary: joined(self.ordinary, other.ordinary),
            default: joined(self.default, other.default),
        }
    }

    /// What one assertion says where it speaks.
    pub fn of(assertion: &Assertion) -> Heard
        ensures { result ≡ spoken assertion.now }
    {
        let value = Some(assertion.value);
        if assertion.is_default {
            Heard {
                ordinary: None,
                default: value,
            }
        } else {
            Heard {
                ordinary: value,
                default: None,
            }
        }
    }
}
