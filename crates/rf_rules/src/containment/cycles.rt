//! The rule that nothing contains itself.

ghost use Rattle.std.specs.Prelude.{◌≡◌, ◌<◌, IfOk, None, false, length, slice_index_or, vec_len, ℕ};
ghost use Rattle.rf_problem.specs.Contained.{is_containing};
ghost use Rattle.rf_rules.specs.Containment.{acyclic, leads};
ghost use Rattle.rf_rules.specs.Effects.{is_ready};
ghost use Rattle.rf_rules.specs.Rules.{least_object};
ghost use Rattle.rf_rules.specs.declared.rule.Rule.TheVariants.{Acyclic};

use super::references::is_containing;
use super::steps::leading_to;
use crate::words::{is_one, may};
use rf_finite::{Test, first_passing};
use rf_state::Facts;
use std::alloc::{AllocError, Global};

/// Whether `acyclic` fires, by the marks of the objects from which a walk leads to `a`.
fn acyclic_by<F: Facts>(view: &F, leading: &[bool], r: u32, a: u64, b: u64) -> bool
    requires reference { r < length (F.problem view.now).references }
    requires from { a < length (F.state view.now).objects }
    requires to { b < length (F.state view.now).objects }
    requires many { length leading.now ≡ length (F.state view.now).objects }
    requires leading { (c : ℕ) → c < length (F.state view.now).objects
        → slice_index_or leading.now c false ≡ leads (F.problem view.now) (F.state view.now) c a }
    ensures { result ≡ is_ready (F.state view.now) (acyclic (F.problem view.now) (F.state view.now) r a b) }
{
    is_containing(view.problem(), r)
        && (leading[b as usize] || a == b && is_one(view, a))
        && may(view, r, a, b)
}

/// Whether `acyclic` fires at a reference and two objects. Where memory runs out, the answer is an `AllocError`.
pub fn acyclic<F: Facts>(
    alloc: Global,
    view: &F,
    r: u32,
    a: u64,
    b: u64,
) -> Result<bool, AllocError>
    requires reference { r < length (F.problem view.now).references }
    requires from { a < length (F.state view.now).objects }
    requires to { b < length (F.state view.now).objects }
    ensures { IfOk result (λ ready. ready ≡ is_ready (F.state view.now) (acyclic (F.problem view.now) (F.state view.now) r a b)) }
{
    let leading = leading_to(alloc, view, a)?;
    Ok(acyclic_by(view, &leading, r, a, b))
}

#[derive(Drop)]
struct AcyclicRow<'v, F: Facts> {
    view: &'v F,
    leading: &'v [bool],
    reference: u32,
    from: u64,
    ghost there: { (reference < length (F.problem view.now).references) × (from < length (F.state view.now).objects) },
    ghost many: { length leading.now ≡ length (F.state view.now).objects },
    ghost marked: { (c : ℕ) → c < length (F.state view.now).objects
        → slice_index_or leading.now c false ≡ leads (F.problem view.now) (F.state view.now) c from },
}

impl<F: Facts> Test for AcyclicRow<'_, F> {
    ghost use Rattle.std.specs.Prelude.{length};
    ghost use Rattle.rf_rules.specs.Rules.{fires};
    ghost use Rattle.rf_rules.specs.declared.rule.Rule.TheVariants.{Acyclic};

    ghost bound = { λ row. length (F.state row.view.now).objects };

    ghost passing = { λ row b. fires (F.problem row.view.now) (F.state row.view.now) (Acyclic row.reference row.from b) };

    fn bound(&self) -> u64 {
        self.view.objects()
    }

    fn passes(&self, number: u64) -> bool {
        acyclic_by(self.view, self.leading, self.reference, self.from, number)
    }
}

/// The least `b` at which `acyclic r a b` fires. One search serves all of them. Where memory runs out, the answer is
/// an `AllocError`.
pub fn acyclic_row<F: Facts>(
    alloc: Global,
    view: &F,
    r: u32,
    a: u64,
) -> Result<Option<u64>, AllocError>
    requires reference { r < length (F.problem view.now).references }
    requires from { a < length (F.state view.now).objects }
    ensures { IfOk result (λ least. least ≡ least_object (F.problem view.now) (F.state view.now) (Acyclic r a)) }
{
    if !is_containing(view.problem(), r) {
        return Ok(None);
    }
    let leading = leading_to(alloc, view, a)?;
    Ok(first_passing(&AcyclicRow {
        view,
        leading: &leading,
        reference: r,
        from: a,
    }))
}
