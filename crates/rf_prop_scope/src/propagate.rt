//! The least rule of scopes that fires.

ghost use Rattle.std.specs.Prelude.{◌≡◌, IfOk};
ghost use Rattle.rf_pending.specs.Families.{IsLeastOf, is_of_scopes};
ghost use Rattle.rf_prop_scope.specs.Kinds.{first_of_all};
ghost use Rattle.rf_prop_scope.specs.Pending.{Covers};

use crate::Pending;
use crate::kinds::{Kind, least_of};
use rf_rules::Rule;
use rf_state::{Facts, View};
use std::alloc::{AllocError, Global};

// The first rule that fires, one kind after the other.
fn first_of_all<F: Facts>(
    alloc: Global,
    view: &F,
    pending: &mut Pending,
) -> Result<Option<Rule>, AllocError>
    requires { Covers (F.problem view.now) (F.state view.now) pending.old }
    ensures least { IfOk result (λ rule. rule ≡ first_of_all (F.problem view.now) (F.state view.now)) }
    ensures covers { Covers (F.problem view.now) (F.state view.now) pending.new }
{
    if let Some(rule) = least_of(alloc, view, Kind::Under, &mut pending.under)? {
        return Ok(Some(rule));
    }
    if let Some(rule) = least_of(alloc, view, Kind::Top, &mut pending.top)? {
        return Ok(Some(rule));
    }
    if let Some(rule) = least_of(alloc, view, Kind::Bottom, &mut pending.bottom)? {
        return Ok(Some(rule));
    }
    if let Some(rule) = least_of(alloc, view, Kind::Out, &mut pending.outside)? {
        return Ok(Some(rule));
    }
    least_of(alloc, view, Kind::In, &mut pending.inside)
}

/// The least rule of scopes that fires, and none exactly where none does. The rules that were looked
/// at in vain are no longer pending. Where memory runs out, the answer is an `AllocError`, and what is pending
/// covers the state as before.
pub fn least<F: Facts>(
    alloc: Global,
    view: &F,
    pending: &mut Pending,
) -> Result<Option<Rule>, AllocError>
    requires { Covers (F.problem view.now) (F.state view.now) pending.old }
    ensures least { IfOk result (IsLeastOf is_of_scopes (F.problem view.now) (F.state view.now)) }
    ensures covers { Covers (F.problem view.now) (F.state view.now) pending.new }
{
    first_of_all(alloc, view, pending)
}

/// The same for a state of which nothing is known to be done.
pub fn next<V: View>(alloc: Global, view: &V) -> Result<Option<Rule>, AllocError>
    ensures { IfOk result (IsLeastOf is_of_scopes (V.problem view.now) (V.state view.now)) }
{
    let mut pending = Pending::all(alloc, view)?;
    least(alloc, view, &mut pending)
}
