//! Upper ends of counts, where `None` means unbounded.

ghost use Rattle.std.specs.Prelude.{◌≡◌, ◌^◌, ◌<◌, IfSome};
ghost use Rattle.rf_finite.specs.Ends.{within, add_ends};

/// Whether `count` is at most this end.
pub fn within(count: u64, end: Option<u64>) -> bool
    ensures { result ≡ within count end }
{
    match end {
        None => true,
        Some(most) => count <= most,
    }
}

/// The sum of two ends, which has no end where one of them has none.
pub fn add_ends(a: Option<u64>, b: Option<u64>) -> Option<u64>
    requires { IfSome (add_ends a b) (λ sum. sum < 2 ^ 64) }
    ensures { result ≡ add_ends a b }
{
    match (a, b) {
        (Some(x), Some(y)) => Some(x + y),
        _ => None,
    }
}
