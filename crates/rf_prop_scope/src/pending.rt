//! Which rules of scopes may fire.

ghost use Rattle.std.specs.Prelude.{◌≡◌, IfOk, None};
ghost use Rattle.rf_pending.specs.Families.{IsLeastOf, is_of_scopes};
ghost use Rattle.rf_prop_scope.specs.Pending.{Covers};

use rf_pending::Marks;
use rf_state::Facts;
use std::alloc::{AllocError, Global};

/// The rows in which rules of scopes may fire, one set of marks for each kind of rule.
#[derive(Debug, Drop)]
pub struct Pending {
    pub under: Marks,
    pub top: Marks,
    pub bottom: Marks,
    pub outside: Marks,
    pub inside: Marks,
}

impl Pending {
    /// Each rule may fire.
    pub fn all<F: Facts>(alloc: Global, view: &F) -> Result<Pending, AllocError>
        ensures { IfOk result (Covers (F.problem view.now) (F.state view.now)) }
    {
        let scopes = view.problem().scopes.len() as u128;
        Ok(Pending {
            under: Marks::all(alloc, scopes)?,
            top: Marks::all(alloc, scopes)?,
            bottom: Marks::all(alloc, scopes)?,
            outside: Marks::all(alloc, scopes)?,
            inside: Marks::all(alloc, scopes)?,
        })
    }

    /// No rule is left to be looked for, where none fires.
    pub fn none<F: Facts>(alloc: Global, view: &F) -> Result<Pending, AllocError>
        requires { IsLeastOf is_of_scopes (F.problem view.now) (F.state view.now) None }
        ensures { IfOk result (Covers (F.problem view.now) (F.state view.now)) }
    {
        let scopes = view.problem().scopes.len() as u128;
        Ok(Pending {
            under: Marks::none(alloc, scopes)?,
            top: Marks::none(alloc, scopes)?,
            bottom: Marks::none(alloc, scopes)?,
            outside: Marks::none(alloc, scopes)?,
            inside: Marks::none(alloc, scopes)?,
        })
    }
}
