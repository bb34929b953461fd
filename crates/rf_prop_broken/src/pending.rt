//! Which rules of predicates may fire.

ghost use Rattle.std.specs.Prelude.{◌≡◌, IfOk, None};
ghost use Rattle.rf_pending.specs.Families.{IsLeastOf, is_of_predicates};
ghost use Rattle.rf_prop_broken.specs.Pending.{Covers};

use rf_pending::Marks;
use rf_state::Facts;
use std::alloc::{AllocError, Global};

/// The predicates whose rules may fire, one set of marks for each kind of rule.
#[derive(Debug, Drop)]
pub struct Pending {
    pub broken: Marks,
    pub forced: Marks,
}

impl Pending {
    /// Each rule may fire.
    pub fn all<F: Facts>(alloc: Global, view: &F) -> Result<Pending, AllocError>
        ensures { IfOk result (Covers (F.problem view.now) (F.state view.now)) }
    {
        let predicates = view.problem().predicates.len() as u128;
        Ok(Pending {
            broken: Marks::all(alloc, predicates)?,
            forced: Marks::all(alloc, predicates)?,
        })
    }

    /// No rule is left to be looked for, where none fires.
    pub fn none<F: Facts>(alloc: Global, view: &F) -> Result<Pending, AllocError>
        requires { IsLeastOf is_of_predicates (F.problem view.now) (F.state view.now) None }
        ensures { IfOk result (Covers (F.problem view.now) (F.state view.now)) }
    {
        let predicates = view.problem().predicates.len() as u128;
        Ok(Pending {
            broken: Marks::none(alloc, predicates)?,
            forced: Marks::none(alloc, predicates)?,
        })
    }
}
