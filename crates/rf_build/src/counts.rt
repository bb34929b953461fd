//! The counts that ranges stand for.

ghost use Rattle.std.specs.Prelude.{◌≡◌};
ghost use Rattle.rf_build.specs.Resolved.{any_number, count_of_mult, count_of_range, count_or_any, upper_end};

use rf_syntax::{MultPlace, Range, Upper};
use rf_values::Count;

fn upper_end(lo: u32, upper: Upper) -> Option<u64>
    ensures { result ≡ upper_end lo upper }
{
    match upper {
        Upper::Absent => Some(u64::from(lo)),
        Upper::Star => None,
        Upper::Number(n) => Some(u64::from(n)),
    }
}

/// The count of a range.
pub fn count_of_range(range: Range) -> Count
    ensures { result ≡ count_of_range range }
{
    Count {
        lo: u64::from(range.lo),
        hi: upper_end(range.lo, range.hi),
    }
}

fn any_number() -> Count
    ensures { result ≡ any_number }
{
    Count { lo: 0, hi: None }
}

/// The count of a range that may be left out.
pub fn count_or_any(range: Option<Range>) -> Count
    ensures { result ≡ count_or_any range }
{
    match range {
        Some(range) => count_of_range(range),
        None => any_number(),
    }
}

/// The count of a reference's multiplicity.
pub fn count_of_mult(mult: MultPlace) -> Count
    ensures { result ≡ count_of_mult mult }
{
    match mult {
        MultPlace::Absent => Count { lo: 0, hi: Some(1) },
        MultPlace::AfterType(mult) | MultPlace::AfterName(mult) => count_or_any(mult.range),
    }
}
