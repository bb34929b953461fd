//! Two results as one.

ghost use Rattle.std.specs.Prelude.{◌≡◌, IfOk, Ok};

use std::alloc::AllocError;

/// Both values, where there are both. A caller that makes several tables holds none of them at a failure.
pub fn both<A: Drop, B: Drop>(
    first: Result<A, AllocError>,
    second: Result<B, AllocError>,
) -> Result<(A, B), AllocError>
    ensures first { IfOk result (λ pair. first ≡ Ok pair.0) }
    ensures second { IfOk result (λ pair. second ≡ Ok pair.1) }
{
    Ok((first?, second?))
}
