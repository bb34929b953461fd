//! Sums over a few numbers, through the trait of what is summed, and the first number that passes a test.

use rf_finite::{Parts, Test, first_passing, sum_beside, sum_of_ends, sum_of_parts, total_of_ends};
use std::test::Fail;

/// The numbers below 5 but for 2, each with itself and one more.
#[derive(Drop)]
struct OneMore;

impl Parts<u64> for OneMore {
    ghost use Rattle.std.specs.Prelude.{◌+◌, ◌==◌, not};

    ghost bound = { λ s. 5 };

    ghost counted = { λ s x. not (x == 2) };

    ghost part = { λ s x. x + 1 };

    fn bound(&self) -> u64 {
        5
    }

    fn counted(&self, number: u64) -> bool {
        number != 2
    }

    fn part(&self, number: u64) -> u64 {
        number + 1
    }
}

/// The numbers below a bound, each its own end, but for the last, which has none.
#[derive(Drop)]
struct Ends {
    bound: u64,
}

impl Parts<Option<u64>> for Ends {
    ghost use Rattle.std.specs.Prelude.{◌==◌, if◌then◌else◌, None, Some, true};

    ghost bound = { λ s. s.bound };

    ghost counted = { λ s x. true };

    ghost part = { λ s x. if x == 4 then None else Some x };

    fn bound(&self) -> u64 {
        self.bound
    }

    fn counted(&self, number: u64) -> bool {
        true
    }

    fn part(&self, number: u64) -> Option<u64> {
        if number == 4 { None } else { Some(number) }
    }
}

#[test]
fn parts_are_summed(rt: HostRuntime) -> Result<(), Fail> {
    assert_eq!(rt; sum_of_parts(&OneMore), 12);
    assert_eq!(rt; sum_of_ends(&Ends { bound: 4 }), Some(6));
    assert_eq!(rt; sum_of_ends(&Ends { bound: 5 }), None);
    Ok(())
}

#[test]
fn one_part_is_left_out(rt: HostRuntime) {
    let total = sum_of_parts(&OneMore);
    assert_eq!(rt; sum_beside(&OneMore, total, 3), 8);
    assert_eq!(rt; sum_beside(&OneMore, total, 2), 12);
    let ends = Ends { bound: 5 };
    let total = total_of_ends(&ends);
    assert_eq!(rt; total.sum(), None);
    assert_eq!(rt; total.sum_beside(&ends, 4), Some(6));
    assert_eq!(rt; total.sum_beside(&ends, 1), None);
}

/// Whether a number below 9 is at least another.
#[derive(Drop)]
struct AtLeast {
    least: u64,
}

impl Test for AtLeast {
    ghost use Rattle.std.specs.Prelude.{nat_le};

    ghost bound = { λ s. 9 };

    ghost passing = { λ s x. nat_le s.least x };

    fn bound(&self) -> u64 {
        9
    }

    fn passes(&self, number: u64) -> bool {
        self.least <= number
    }
}

#[test]
fn the_first_passes(rt: HostRuntime) {
    assert_eq!(rt; first_passing(&AtLeast { least: 4 }), Some(4));
    assert_eq!(rt; first_passing(&AtLeast { least: 9 }), None);
}
