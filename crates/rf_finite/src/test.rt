//! The first of the numbers below a bound that passes a test.

ghost use Rattle.std.specs.Prelude.{◌≡◌};
ghost use Rattle.std.specs.Bool.{then_some};
ghost use Rattle.rf_finite.specs.Range.{first_below};

/// A test of the numbers below a bound.
pub trait Test {
    ghost use Rattle.std.specs.Prelude.{ℕ, Bool, ◌<◌};

    ghost bound: { Self → ℕ };

    ghost passing: { Self → ℕ → Bool };

    /// The bound of the numbers that are tested.
    fn bound(&self) -> u64
        ensures { result ≡ bound self.now };

    /// Whether a number passes.
    fn passes(&self, number: u64) -> bool
        requires { number < bound self.now }
        ensures { result ≡ passing self.now number };
}

/// The first number that passes.
pub fn first_passing<T: Test>(test: &T) -> Option<u64>
    ensures { result ≡ first_below (T.bound test.now) (λ k. then_some (T.passing test.now k) k) }
{
    for number in 0..test.bound() {
        if test.passes(number) {
            return Some(number);
        }
    }
    None
}
