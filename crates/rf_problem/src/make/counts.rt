ghost use Rattle.std.specs.Prelude.{◌↔◌, IsTrue};
ghost use Rattle.rf_problem.specs.Valid.{IsSmall};

use rf_bounds::GREATEST_NUMBER;
use rf_values::Count;

/// Whether both ends are at most the greatest number that a problem may have.
pub fn is_small(count: Count) -> bool
    ensures { IsTrue result ↔ IsSmall count }
{
    count.lo <= u64::from(GREATEST_NUMBER)
        && count.hi.is_none_or(|end| end <= u64::from(GREATEST_NUMBER))
}
