//! Which rules of all families may fire, and the least that does.

ghost use Rattle.std.specs.Prelude.{IfOk, None, OnOk};
ghost use Rattle.rf_state.specs.State.{State};
ghost use Rattle.rf_pending.specs.Changes.{FitsChange, IsChange};
ghost use Rattle.rf_search.specs.Least.{IsLeast};
ghost use Rattle.rf_search.specs.Pending.{Covers};

use rf_pending::Change;
use rf_rules::Rule;
use rf_state::View;
use std::alloc::{AllocError, Global};

/// What may fire, by the families of rules.
#[derive(Debug, Drop)]
pub struct Pending {
    pub types: rf_prop_type::Pending,
    pub degrees: rf_prop_mult::Pending,
    pub containment: rf_prop_contain::Pending,
    pub scopes: rf_prop_scope::Pending,
    pub predicates: rf_prop_broken::Pending,
}

impl Pending {
    /// Each rule may fire.
    pub fn all<V: View>(alloc: Global, view: &V) -> Result<Pending, AllocError>
        ensures { IfOk result (Covers (V.problem view.now) (V.state view.now)) }
    {
        Ok(Pending {
            types: rf_prop_type::Pending::all(alloc, view)?,
            degrees: rf_prop_mult::Pending::all(alloc, view)?,
            containment: rf_prop_contain::Pending::all(alloc, view)?,
            scopes: rf_prop_scope::Pending::all(alloc, view)?,
            predicates: rf_prop_broken::Pending::all(alloc, view)?,
        })
    }

    /// No rule is left to be looked for, where none fires.
    pub fn none<V: View>(alloc: Global, view: &V) -> Result<Pending, AllocError>
        requires { IsLeast (V.problem view.now) (V.state view.now) None }
        ensures { IfOk result (Covers (V.problem view.now) (V.state view.now)) }
    {
        Ok(Pending {
            types: rf_prop_type::Pending::none(alloc, view)?,
            degrees: rf_prop_mult::Pending::none(alloc, view)?,
            containment: rf_prop_contain::Pending::none(alloc, view)?,
            scopes: rf_prop_scope::Pending::none(alloc, view)?,
            predicates: rf_prop_broken::Pending::none(alloc, view)?,
        })
    }
}

/// The least rule that fires, family by family. What was looked at in vain is no longer pending. Where memory runs
/// out, the answer is an `AllocError`, and what is pending covers the state as before.
pub fn least<V: View>(
    alloc: Global,
    view: &V,
    pending: &mut Pending,
) -> Result<Option<Rule>, AllocError>
    requires { Covers (V.problem view.now) (V.state view.now) pending.old }
    ensures least { IfOk result (IsLeast (V.problem view.now) (V.state view.now)) }
    ensures covers { Covers (V.problem view.now) (V.state view.now) pending.new }
{
    if let Some(rule) = rf_prop_type::least(alloc, view, &mut pending.types)? {
        return Ok(Some(rule));
    }
    if let Some(rule) = rf_prop_mult::least(alloc, view, &mut pending.degrees)? {
        return Ok(Some(rule));
    }
    if let Some(rule) = rf_prop_contain::least(alloc, view, &mut pending.containment)? {
        return Ok(Some(rule));
    }
    if let Some(rule) = rf_prop_scope::least(alloc, view, &mut pending.scopes)? {
        return Ok(Some(rule));
    }
    rf_prop_broken::least(alloc, view, &mut pending.predicates)
}

/// Makes pending what may fire after a change: where what was pending covered the state before, it covers the state
/// now.
pub fn touch<V: View>(
    alloc: Global,
    view: &V,
    pending: &mut Pending,
    change: Change,
) -> Result<(), AllocError>
    requires { FitsChange (V.problem view.now) (V.state view.now) change }
    ensures { OnOk result ((s : State) → IsChange change s (V.state view.now) → Covers (V.problem view.now) s pending.old
        → Covers (V.problem view.now) (V.state view.now) pending.new) }
{
    rf_prop_type::touch(alloc, view, &mut pending.types, change)?;
    rf_prop_mult::touch(alloc, view, &mut pending.degrees, change)?;
    rf_prop_contain::touch(alloc, view, &mut pending.containment, change)?;
    rf_prop_scope::touch(&mut pending.scopes, change);
    rf_prop_broken::touch(alloc, view, &mut pending.predicates, change)
}
