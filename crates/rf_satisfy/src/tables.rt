//! Tables in which each entry begins as the same value.

ghost use Rattle.std.specs.Prelude.{◌≡◌, IfOk, false, replicate};

use std::alloc::{AllocError, Global};

pub fn zeros(alloc: Global, length: usize) -> Result<Vec<u64>, AllocError>
    ensures { IfOk result (λ v. v.items ≡ replicate length 0) }
{
    vec![in alloc; 0u64; length]
}

pub fn falses(alloc: Global, length: usize) -> Result<Vec<bool>, AllocError>
    ensures { IfOk result (λ v. v.items ≡ replicate length false) }
{
    vec![in alloc; false; length]
}
