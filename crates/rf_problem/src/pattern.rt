ghost use Rattle.std.specs.Prelude.{◌≡◌, ◌<◌, ◌≤◌, ◌++◌, ◌∷◌, [], length};
ghost use Rattle.rf_bounds.specs.declared.TheConstants.{MOST_PARAMETERS};

use rf_bounds::MOST_PARAMETERS;
use std::marker::Model;

/// The first arguments of an assertion, in no memory of their own.
#[derive(Drop)]
pub struct Pattern {
    args: [Option<u64>; MOST_PARAMETERS],
    len: usize,
}

impl Model for Pattern {
    ghost use Rattle.std.specs.Prelude.{List, ℕ, Option, ◌≤◌, take};
    ghost use Rattle.rf_bounds.specs.declared.TheConstants.{MOST_PARAMETERS};

    ghost Value = { List (Option ℕ) };

    ghost view = { λ p. take p.len p.args };

    ghost invariant = { λ p. p.len ≤ MOST_PARAMETERS };
}

impl Pattern {
    pub fn empty() -> Pattern
        ensures { result ≡ [] }
    {
        Pattern {
            args: [None; MOST_PARAMETERS],
            len: 0,
        }
    }

    /// These arguments and one more; None is `*`.
    pub fn with(&self, arg: Option<u64>) -> Pattern
        requires { length self.now < MOST_PARAMETERS }
        ensures { result ≡ self.now ++ arg ∷ [] }
    {
        let mut args = self.args;
        args[self.len] = arg;
        Pattern {
            args,
            len: self.len + 1,
        }
    }

    pub fn as_slice(&self) -> &[Option<u64>]
        ensures args { result.now ≡ self.now }
        ensures few { length self.now ≤ MOST_PARAMETERS }
    {
        &self.args[..self.len]
    }
}
