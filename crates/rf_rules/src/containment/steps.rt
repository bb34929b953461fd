//! What has to contain what, step by step.

ghost use Rattle.std.specs.Prelude.{◌≡◌, ◌<◌, ◌&&◌, IfOk, ℕ, false, length, slice_index_or, vec_len};
ghost use Rattle.rf_problem.specs.Contained.{is_containing};
ghost use Rattle.rf_rules.specs.Containment.{leads, must_hold};
ghost use Rattle.rf_rules.specs.Words.{must};

use super::references::is_containing;
use crate::words::{lo, must};
use rf_closure::{Edges, reach};
use rf_state::Facts;
use std::alloc::{AllocError, Global};

/// Whether an edge of a reference that contains has to lead from one object to another.
pub fn must_contain_by<F: Facts>(view: &F, q: u32, x: u64, y: u64) -> bool
    requires reference { q < length (F.problem view.now).references }
    requires from { x < length (F.state view.now).objects }
    requires to { y < length (F.state view.now).objects }
    ensures { result ≡ (is_containing (F.problem view.now) q && must (F.problem view.now) (F.state view.now) q x y) }
{
    is_containing(view.problem(), q) && must(view, q, x, y)
}

/// Whether an object has to contain another.
fn must_hold<F: Facts>(view: &F, x: u64, y: u64) -> bool
    requires from { x < length (F.state view.now).objects }
    requires to { y < length (F.state view.now).objects }
    ensures { result ≡ must_hold (F.problem view.now) (F.state view.now) x y }
{
    for reference in 0..view.problem().references.len() as u32 {
        if must_contain_by(view, reference, x, y) {
            return true;
        }
    }
    false
}

/// From each object to those that have to contain it, through objects that have a node.
#[derive(Drop)]
struct Upward<'v, F: Facts> {
    view: &'v F,
}

impl<F: Facts> Edges for Upward<'_, F> {
    ghost use Rattle.std.specs.Prelude.{length, nat_le};
    ghost use Rattle.rf_rules.specs.Containment.{must_hold};
    ghost use Rattle.rf_rules.specs.Words.{lo};

    ghost size = { λ up. length (F.state up.view.now).objects };

    ghost edge = { λ up x y. must_hold (F.problem up.view.now) (F.state up.view.now) y x };

    ghost through = { λ up x. nat_le 1 (lo (F.state up.view.now) x) };

    fn size(&self) -> u64 {
        self.view.objects()
    }

    fn edge(&self, a: u64, b: u64) -> bool {
        must_hold(self.view, b, a)
    }

    fn through(&self, a: u64) -> bool {
        lo(self.view, a) >= 1
    }
}

/// Marks the objects from which a walk of such steps leads to an object: one search for all of them.
/// Where memory runs out, the answer is an `AllocError`.
pub fn leading_to<F: Facts>(alloc: Global, view: &F, a: u64) -> Result<Vec<bool>, AllocError>
    requires { a < length (F.state view.now).objects }
    ensures len { IfOk result (λ marks. vec_len marks ≡ length (F.state view.now).objects) }
    ensures marks { IfOk result (λ marks. (b : ℕ) → b < length (F.state view.now).objects
        → slice_index_or marks.items b false ≡ leads (F.problem view.now) (F.state view.now) b a) }
{
    let marks = reach(alloc, &Upward { view }, a)?;
    Ok(marks)
}
