//! What the propagators find beside what a scan does.

ghost use Rattle.rf_search.specs.Pending.{Covers};

use crate::scanned::Scanned;
use rf_search::Pending;
use rf_state::View;
use std::alloc::{AllocError, Global};
use std::process::Abort;

/// Looks whether each family finds the same where nothing is known to be done.
pub fn compare_next<V: View>(
    rt: &impl Abort,
    alloc: Global,
    view: &V,
    scanned: &Scanned,
) -> Result<(), AllocError> {
    assert_eq!(rt; rf_prop_type::next(alloc, view)?, scanned.types);
    assert_eq!(rt; rf_prop_mult::next(alloc, view)?, scanned.degrees);
    assert_eq!(rt; rf_prop_contain::next(alloc, view)?, scanned.containment);
    assert_eq!(rt; rf_prop_scope::next(alloc, view)?, scanned.scopes);
    assert_eq!(rt; rf_prop_broken::next(alloc, view)?, scanned.predicates);
    Ok(())
}

/// Looks whether each family finds the same in what is pending.
pub fn compare_families<V: View>(
    rt: &impl Abort,
    alloc: Global,
    view: &V,
    pending: &mut Pending,
    scanned: &Scanned,
) -> Result<(), AllocError>
    requires { Covers (V.problem view.now) (V.state view.now) pending.old }
    ensures { Covers (V.problem view.now) (V.state view.now) pending.new }
{
    let types = rf_prop_type::least(alloc, view, &mut pending.types)?;
    assert_eq!(rt; types, scanned.types);
    let degrees = rf_prop_mult::least(alloc, view, &mut pending.degrees)?;
    assert_eq!(rt; degrees, scanned.degrees);
    let containment = rf_prop_contain::least(alloc, view, &mut pending.containment)?;
    assert_eq!(rt; containment, scanned.containment);
    let scopes = rf_prop_scope::least(alloc, view, &mut pending.scopes)?;
    assert_eq!(rt; scopes, scanned.scopes);
    let predicates = rf_prop_broken::least(alloc, view, &mut pending.predicates)?;
    assert_eq!(rt; predicates, scanned.predicates);
    Ok(())
}

/// Looks whether the least rule of all families is the same.
pub fn compare_least<V: View>(
    rt: &impl Abort,
    alloc: Global,
    view: &V,
    pending: &mut Pending,
    scanned: &Scanned,
) -> Result<(), AllocError>
    requires { Covers (V.problem view.now) (V.state view.now) pending.old }
    ensures { Covers (V.problem view.now) (V.state view.now) pending.new }
{
    let least = rf_search::least(alloc, view, pending)?;
    assert_eq!(rt; least, scanned.least());
    Ok(())
}
