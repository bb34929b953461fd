//! The first edge of a row that would close a cycle.

ghost use Rattle.std.specs.Prelude.{◌≡◌, ◌<◌, ℕ, IfOk, false, length};
ghost use Rattle.rf_rules.specs.Rules.{least_object};
ghost use Rattle.rf_rules.specs.Words.{may};
ghost use Rattle.rf_rules.specs.declared.rule.Rule.TheVariants.{Acyclic};

use rf_rules::containment::acyclic_row;
use rf_state::Facts;
use std::alloc::{AllocError, Global};

// Whether an edge of a reference may lead from an object to some object.
fn may_lead<F: Facts>(view: &F, r: u32, a: u64) -> bool
    requires reference { r < length (F.problem view.now).references }
    requires from { a < length (F.state view.now).objects }
    ensures { result ≡ false → (b : ℕ) → b < length (F.state view.now).objects
        → may (F.problem view.now) (F.state view.now) r a b ≡ false }
{
    for b in 0..view.objects() {
        if view.fact(r, a, b).may() {
            return true;
        }
    }
    false
}

/// The least `b` at which `acyclic r a b` fires. Walks are searched only where some edge of the row may be there. Where
/// memory runs out, the answer is an `AllocError`.
pub fn least_acyclic<F: Facts>(
    alloc: Global,
    view: &F,
    r: u32,
    a: u64,
) -> Result<Option<u64>, AllocError>
    requires reference { r < length (F.problem view.now).references }
    requires from { a < length (F.state view.now).objects }
    ensures { IfOk result (λ least. least ≡ least_object (F.problem view.now) (F.state view.now) (Acyclic r a)) }
{
    if view.problem().reference(r).kind.is_contains() && !may_lead(view, r, a) {
        return Ok(None);
    }
    acyclic_row(alloc, view, r, a)
}
