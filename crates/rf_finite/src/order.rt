//! Firsts in an order.

ghost use Rattle.std.specs.Prelude.{◌≡◌};
ghost use Rattle.rf_finite.specs.Firsts.{earlier};

use std::cmp::Ordering;

/// Of two values that may be there the one that comes first.
pub fn earlier<T: Ord + Copy>(first: Option<T>, other: Option<T>) -> Option<T>
    ensures { result ≡ earlier T.cmp first other }
{
    match (first, other) {
        (None, _) => other,
        (_, None) => first,
        (Some(x), Some(y)) => {
            if y.cmp(&x) == Ordering::Less {
                other
            } else {
                first
            }
        }
    }
}
