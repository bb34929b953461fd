//! Sums over the numbers below a bound.

ghost use Rattle.std.specs.Prelude.{◌≡◌};
ghost use Rattle.rf_finite.specs.Ends.{ends_below};
ghost use Rattle.rf_finite.specs.Range.{sum_below};

/// What is summed: a part for each number below a bound that is counted.
pub trait Parts<V> {
    ghost use Rattle.std.specs.Prelude.{ℕ, Bool, IsTrue, ◌<◌};

    ghost bound: { Self → ℕ };

    ghost counted: { Self → ℕ → Bool };

    ghost part: { Self → ℕ → V };

    /// The bound of the numbers.
    fn bound(&self) -> u64
        ensures { result ≡ bound self.now };

    /// Whether a number is counted.
    fn counted(&self, number: u64) -> bool
        requires { number < bound self.now }
        ensures { result ≡ counted self.now number };

    /// The part of a number that is counted.
    fn part(&self, number: u64) -> V
        requires below { number < bound self.now }
        requires counted { IsTrue (counted self.now number) }
        ensures { result ≡ part self.now number };
}

/// The sum of the parts.
pub fn sum_of_parts<P: Parts<u64>>(parts: &P) -> u128
    ensures { result ≡ sum_below (P.bound parts.now) (P.counted parts.now) (P.part parts.now) }
{
    let mut total: u128 = 0;
    for number in 0..parts.bound() {
        if parts.counted(number) {
            total += parts.part(number) as u128;
        }
    }
    total
}

/// The sum of upper ends, which has no end where one of them has none.
pub fn sum_of_ends<P: Parts<Option<u64>>>(ends: &P) -> Option<u128>
    ensures { result ≡ ends_below (P.bound ends.now) (P.counted ends.now) (P.part ends.now) }
{
    let mut total: u128 = 0;
    for number in 0..ends.bound() {
        if ends.counted(number) {
            match ends.part(number) {
                Some(end) => total += end as u128,
                None => return None,
            }
        }
    }
    Some(total)
}
