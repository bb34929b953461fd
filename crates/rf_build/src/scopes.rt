//! The scopes of a problem.

ghost use Rattle.std.specs.Prelude.{◌≡◌, IfOk, map};
ghost use Rattle.rf_build.specs.Resolved.{resolved_scope};

use crate::counts::count_of_range;
use rf_names::Names;
use rf_problem::Scope;
use rf_syntax::Bound;
use std::alloc::{AllocError, Global};

fn resolved_scope(names: &Names, bound: &Bound) -> Scope
    ensures { result ≡ resolved_scope names.now.declared.now bound.now }
{
    Scope {
        class: names.class_named(bound.name.text.as_str()),
        only_new: bound.only_new,
        range: count_of_range(bound.range),
    }
}

/// The scopes that are stated.
pub fn resolved_scopes(alloc: Global, names: &Names) -> Result<Vec<Scope>, AllocError>
    ensures { IfOk result (λ scopes. scopes.items
        ≡ map (resolved_scope names.now.declared.now) names.now.declared.now.bounds) }
{
    let declared = names.declared;
    let mut scopes = Vec::new(alloc);
    for bound in declared.bounds.as_slice() {
        scopes.push(resolved_scope(names, bound))?;
    }
    Ok(scopes)
}
