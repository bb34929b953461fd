//! Which nodes lie on a cycle of nodes that contain each other, where each has at most one container: what
//! is left when those are peeled off that contain nothing, again and again.

ghost use Rattle.std.specs.Prelude.{◌≡◌, ◌<◌, ◌+◌, ◌&&◌, ◌==◌, ℕ, not, false, None, Some, IfOk, IfSome, length, replicate, vec_len, slice_index, slice_index_or};
ghost use Rattle.rf_finite.specs.Range.{count_below};
ghost use Rattle.rf_satisfy.specs.ContainerOf.{AreInside, contains_by, is_cyclic};
ghost use Rattle.rf_satisfy.specs.Peeling.{AreAllPeeled, IsPeeling, is_left};

use crate::tables::{falses, zeros};
use std::alloc::{AllocError, Global};

/// The node that contains node `z`.
fn container_of(containers: &[Option<u64>], z: u64) -> Option<u64>
    requires inside { AreInside containers.now }
    requires node { z < length containers.now }
    ensures value { result ≡ slice_index_or containers.now z None }
    ensures inside { IfSome result (λ x. x < length containers.now) }
{
    containers[z as usize]
}

/// How many nodes each node contains.
fn content_counts(alloc: Global, containers: &[Option<u64>]) -> Result<Vec<u64>, AllocError>
    requires { AreInside containers.now }
    ensures len { IfOk result (λ contents. vec_len contents ≡ length containers.now) }
    ensures counts { IfOk result (λ contents. (x : ℕ) → x < length containers.now
        → slice_index contents.items x ≡ count_below (length containers.now) (contains_by containers.now x)) }
{
    let mut contents = zeros(alloc, containers.len())?;
    for z in 0..containers.len() as u64 {
        if let Some(x) = container_of(containers, z) {
            contents[x as usize] += 1;
        }
    }
    Ok(contents)
}

/// Whether node `z` is to be peeled: it isn't yet, and contains nothing that isn't.
fn is_bare(contents: &[u64], peeled: &[bool], z: u64) -> bool
    requires contents { z < length contents.now }
    requires peeled { z < length peeled.now }
    ensures { result ≡ (slice_index contents.now z == 0 && not (slice_index_or peeled.now z false)) }
{
    contents[z as usize] == 0 && !peeled[z as usize]
}

/// Peels node `start` if it is to be peeled, then its container if that has become so, and so on.
fn peel(containers: &[Option<u64>], contents: &mut [u64], peeled: &mut [bool], start: u64)
    requires inside { AreInside containers.now }
    requires node { start < length containers.now }
    requires peeling { IsPeeling containers.now contents.old peeled.old }
    requires all { AreAllPeeled contents.old peeled.old start }
    ensures peeling { IsPeeling containers.now contents.new peeled.new }
    ensures all { AreAllPeeled contents.new peeled.new (start + 1) }
{
    let mut z = start;
    while is_bare(contents, peeled, z) {
        peeled[z as usize] = true;
        let Some(x) = container_of(containers, z) else {
            return;
        };
        contents[x as usize] -= 1;
        z = x;
    }
}

/// Marks each node that lies on no cycle. Each node is peeled at most once.
pub fn off_cycles(alloc: Global, containers: &[Option<u64>]) -> Result<Vec<bool>, AllocError>
    requires { AreInside containers.now }
    ensures len { IfOk result (λ marks. vec_len marks ≡ length containers.now) }
    ensures marks { IfOk result (λ marks. (x : ℕ) → x < length containers.now
        → slice_index_or marks.items x false ≡ not (is_cyclic containers.now x)) }
{
    let mut contents = content_counts(alloc, containers)?;
    let mut peeled = falses(alloc, containers.len())?;
    for start in 0..containers.len() as u64 {
        peel(containers, &mut contents, &mut peeled, start);
    }
    Ok(peeled)
}
