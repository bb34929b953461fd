//! Ranks that fall along the edges between numbered vertices, where there are such.

ghost use Rattle.std.specs.Prelude.{◌≡◌, IfOk, IsTrue, map, nat_lt, slice_index_or};
ghost use Rattle.std.specs.List.{list_all};
ghost use Rattle.rf_names.specs.Ranks.{FallsAlong, HasRanks};

use std::alloc::{AllocError, Global};

// The vertices, of which there are so many.
fn vertices(alloc: Global, count: usize) -> Result<Vec<u64>, AllocError> {
    let mut numbers = Vec::new(alloc);
    for vertex in 0..count {
        numbers.push(vertex as u64)?;
    }
    Ok(numbers)
}

// Whether this is a vertex that no walk has come to: of the vertices to which it leads none was taken.
fn is_new(taken: &[usize], vertex: u64) -> bool {
    match taken.get(vertex as usize) {
        Some(count) => *count == 0,
        None => false,
    }
}

// Takes the next of the vertices to which this one leads.
fn take_next(successors: &[Vec<u64>], taken: &mut Vec<usize>, vertex: u64) -> Option<u64> {
    let list = successors.get(vertex as usize)?;
    let count = taken.get_mut(vertex as usize)?;
    let place = *count;
    *count = place.saturating_add(1);
    list.get(place).copied()
}

// Gives a vertex this rank if it has none.
fn set_rank(ranks: &mut Vec<u64>, vertex: u64, rank: u64) {
    if let Some(own) = ranks.get_mut(vertex as usize) {
        if *own == 0 {
            *own = rank;
        }
    }
}

// Walks from each of these vertices, and gives each vertex its rank when all to which it leads were
// walked to.
fn walk(
    mut stack: Vec<u64>,
    successors: &[Vec<u64>],
    taken: &mut Vec<usize>,
    ranks: &mut Vec<u64>,
) -> Result<(), AllocError> {
    for step in 0..u64::MAX {
        let Some(vertex) = stack.pop() else {
            break;
        };
        match take_next(successors, taken, vertex) {
            None => set_rank(ranks, vertex, step + 1),
            Some(other) => {
                stack.push(vertex)?;
                if is_new(taken.as_slice(), other) {
                    stack.push(other)?;
                }
            }
        }
    }
    Ok(())
}

// Ranks from one on, in the order in which walks leave the vertices for the last time: where no walk leads
// back to its start, each vertex is left after all to which it leads.
fn ranks_of(alloc: Global, successors: &[Vec<u64>]) -> Result<Vec<u64>, AllocError> {
    let count = successors.len();
    let mut ranks = vec![in alloc; 0u64; count]?;
    let mut taken = vec![in alloc; 0usize; count]?;
    walk(vertices(alloc, count)?, successors, &mut taken, &mut ranks)?;
    Ok(ranks)
}

// The rank of a vertex, and 0 for a number that isn't a vertex.
fn rank_at(ranks: &[u64], vertex: u64) -> u64
    ensures { result ≡ slice_index_or ranks.now vertex 0 }
{
    match ranks.get(vertex as usize) {
        Some(rank) => *rank,
        None => 0,
    }
}

fn are_below(ranks: &[u64], vertices: &[u64], rank: u64) -> bool
    ensures { result ≡ list_all (λ q. nat_lt (slice_index_or ranks.now q 0) rank) vertices.now }
{
    for vertex in vertices {
        if rank_at(ranks, *vertex) >= rank {
            return false;
        }
    }
    true
}

// Whether each vertex's rank is greater than those of the vertices to which it leads.
fn falls(ranks: &[u64], successors: &[Vec<u64>]) -> bool
    ensures { IsTrue result → FallsAlong (λ p. slice_index_or ranks.now p 0)
        (map (λ list. list.items) successors.now) }
{
    for (vertex, list) in successors.iter().enumerate() {
        if !are_below(ranks, list.as_slice(), rank_at(ranks, vertex as u64)) {
            return false;
        }
    }
    true
}

/// Whether vertices can be ranked so that ranks fall along each edge, where each vertex leads to the
/// vertices of its list; then no walk leads back to its start. The time grows with the number of vertices
/// and the lengths of their lists together.
///
/// That the answer is yes wherever there are such ranks is tested, not proved.
pub fn has_ranks(alloc: Global, successors: &[Vec<u64>]) -> Result<bool, AllocError>
    ensures { IfOk result (λ yes. IsTrue yes → HasRanks (map (λ list. list.items) successors.now)) }
{
    let ranks = ranks_of(alloc, successors)?;
    Ok(falls(ranks.as_slice(), successors))
}
