//! What is known of the literals of clauses.

ghost use Rattle.std.specs.Prelude.{◌≡◌, ◌<◌, ℕ, IfOk, length, max, slice_index};
ghost use Rattle.rf_problem.specs.Parts.{predicate_at};
ghost use Rattle.rf_evaluate.specs.Kept.{AreKept};
ghost use Rattle.rf_evaluate.specs.Literals.{clause_at, literal_at, literal_known};

use crate::closures::Closures;
use crate::evaluate::{body_of, literal_value};
use crate::knowledge::Knowledge;
use rf_values::Truth;
use std::alloc::AllocError;

/// The value of a literal of a clause of a predicate, where the clause's variables stand for these
/// elements. Where memory runs out, the answer is an `AllocError`.
pub fn literal<K: Knowledge>(
    known: &K,
    closures: &mut Closures,
    predicate: u32,
    clause: usize,
    literal: usize,
    elements: [u64; 8],
) -> Result<Truth, AllocError>
    requires predicate { predicate < length (K.known known.now).problem.predicates }
    requires clause { clause < length (predicate_at (K.known known.now).problem.predicates predicate).clauses }
    requires literal { literal < length (clause_at (K.known known.now).problem predicate clause).literals }
    requires elements { (v : ℕ) → slice_index elements v < max 1 (K.known known.now).size }
    requires kept { AreKept (K.known known.now) closures.old }
    ensures kept { AreKept (K.known known.now) closures.new }
    ensures value { IfOk result (λ v. v ≡ literal_known (K.known known.now) (clause_at (K.known known.now).problem predicate clause).variables literal
        (slice_index elements) (literal_at (clause_at (K.known known.now).problem predicate clause) literal)) }
{
    let problem = known.problem();
    let body = body_of(
        &problem.predicate(predicate).clauses[clause],
        problem.predicates.len() - 1,
    );
    literal_value(known, closures, &body, literal, elements)
}
