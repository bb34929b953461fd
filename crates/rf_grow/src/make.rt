//! The problem of a number.

ghost use Rattle.std.specs.Prelude.{◌≡◌, ◌≤◌, ◌<◌, IfOk};
ghost use Rattle.rf_bounds.specs.declared.TheConstants.{MOST_OBJECTS};
ghost use Rattle.rf_grow.specs.Grown.{IsGrown, grown_scopes};

use crate::assertions::assertions;
use crate::declared::{classes, predicates, references};
use crate::objects::{exactly, objects};
use rf_problem::{Problem, Scope};
use std::alloc::{AllocError, Global};

fn scopes(alloc: Global, n: u32) -> Result<Vec<Scope>, AllocError>
    ensures { IfOk result (λ scopes. scopes.items ≡ grown_scopes n) }
{
    let nodes = Scope {
        class: None,
        only_new: false,
        range: exactly(u64::from(n) + 1),
    };
    Ok(vec![in alloc; nodes]?)
}

/// The problem of one whole with n parts in a row. A problem may name as many objects.
pub fn grown(alloc: Global, n: u32) -> Result<Problem, AllocError>
    requires some { 1 ≤ n }
    requires most { n < MOST_OBJECTS }
    ensures { IfOk result (IsGrown n) }
{
    let classes = classes(alloc)?;
    let references = references(alloc)?;
    let predicates = predicates(alloc)?;
    let objects = objects(alloc, &classes, n)?;
    let assertions = assertions(alloc, n)?;
    let scopes = scopes(alloc, n)?;
    let made = Problem::new(
        alloc, classes, references, predicates, objects, assertions, scopes,
    )?;
    Ok(made.unwrap())
}
