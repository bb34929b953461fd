//! The first of the numbers below a bound at which a rule finds something.

ghost use Rattle.std.specs.Prelude.{◌≡◌};
ghost use Rattle.rf_finite.specs.Range.{first_below};

/// A rule that is asked of each number below a bound, and finds something at some of them.
pub trait Rule<V> {
    ghost use Rattle.std.specs.Prelude.{ℕ, Option, ◌<◌};

    ghost bound: { Self → ℕ };

    ghost found: { Self → ℕ → Option V };

    /// The bound of the numbers that the rule is asked of.
    fn bound(&self) -> u64
        ensures { result ≡ bound self.now };

    /// What the rule finds at a number.
    fn find(&self, number: u64) -> Option<V>
        requires { number < bound self.now }
        ensures { result ≡ found self.now number };
}

/// What a rule finds at the first number at which it finds something.
pub fn first_found<V, R: Rule<V>>(rule: &R) -> Option<V>
    ensures { result ≡ first_below (R.bound rule.now) (R.found rule.now) }
{
    for number in 0..rule.bound() {
        if let Some(value) = rule.find(number) {
            return Some(value);
        }
    }
    None
}
