//! Totals over the numbers below a bound, of which the part of one can be left out.

ghost use Rattle.std.specs.Prelude.{◌≡◌, ◌<◌, ℕ, Bool, Option, ◌==◌, ◌&&◌, not};
ghost use Rattle.rf_finite.specs.Ends.{ends_below};
ghost use Rattle.rf_finite.specs.Range.{sum_below};
ghost use Rattle.rf_finite.specs.Totals.{HasEnd, IsTotal, without};

use crate::parts::Parts;

/// The total of upper ends: how many of them there aren't, and the sum of the others.
#[derive(Clone, Copy, Debug)]
pub struct EndsTotal {
    pub finite: u128,
    pub unbounded: u64,
}

/// The sum of all parts but that of one number, where this is the sum of all.
pub fn sum_beside<P: Parts<u64>>(parts: &P, total: u128, number: u64) -> u128
    requires total { total ≡ sum_below (P.bound parts.now) (P.counted parts.now) (P.part parts.now) }
    requires below { number < P.bound parts.now }
    ensures { result ≡ sum_below (P.bound parts.now) (λ j. not (j == number) && P.counted parts.now j) (P.part parts.now) }
{
    if parts.counted(number) {
        total - parts.part(number) as u128
    } else {
        total
    }
}

/// The total of upper ends.
pub fn total_of_ends<P: Parts<Option<u64>>>(ends: &P) -> EndsTotal
    ensures { IsTotal (P.bound ends.now) (P.counted ends.now) (P.part ends.now) result }
{
    let mut total = EndsTotal {
        finite: 0,
        unbounded: 0,
    };
    for number in 0..ends.bound() {
        if ends.counted(number) {
            match ends.part(number) {
                Some(end) => total.finite += end as u128,
                None => total.unbounded += 1,
            }
        }
    }
    total
}

impl EndsTotal {
    /// The sum of the ends, which has no end where one of them has none.
    pub fn sum(self) -> Option<u128>
        ensures { (n : ℕ) (p : ℕ → Bool) (f : ℕ → Option ℕ) → IsTotal n p f self → result ≡ ends_below n p f }
    {
        if self.unbounded == 0 {
            Some(self.finite)
        } else {
            None
        }
    }

    /// The total without one of the ends.
    fn without(self, end: Option<u64>) -> EndsTotal
        requires { HasEnd self end }
        ensures { result ≡ without self end }
    {
        match end {
            Some(end) => EndsTotal {
                finite: self.finite - end as u128,
                unbounded: self.unbounded,
            },
            None => EndsTotal {
                finite: self.finite,
                unbounded: self.unbounded - 1,
            },
        }
    }

    /// The sum of all ends but that of one number, where this is the total of all.
    pub fn sum_beside<P: Parts<Option<u64>>>(self, ends: &P, number: u64) -> Option<u128>
        requires total { IsTotal (P.bound ends.now) (P.counted ends.now) (P.part ends.now) self }
        requires below { number < P.bound ends.now }
        ensures { result ≡ ends_below (P.bound ends.now) (λ j. not (j == number) && P.counted ends.now j) (P.part ends.now) }
    {
        if ends.counted(number) {
            self.without(ends.part(number)).sum()
        } else {
            self.sum()
        }
    }
}
