//! Which rules of containment may fire.

ghost use Rattle.std.specs.Prelude.{◌≡◌, ◌*◌, IfOk, None, length};
ghost use Rattle.rf_pending.specs.Families.{IsLeastOf, is_of_containment};
ghost use Rattle.rf_prop_contain.specs.Pending.{Covers};

use rf_pending::Marks;
use rf_state::Facts;
use std::alloc::{AllocError, Global};

/// The rows in which rules of containment may fire, one set of marks for each kind of rule.
#[derive(Debug, Drop)]
pub struct Pending {
    pub one_container: Marks,
    pub alone: Marks,
    pub must_contain: Marks,
    pub contain_count: Marks,
    pub no_container: Marks,
    pub acyclic: Marks,
}

// How many rows of references and objects there are.
fn edge_rows<F: Facts>(view: &F) -> u128
    ensures { result ≡ length (F.problem view.now).references * length (F.state view.now).objects }
{
    view.problem().references.len() as u128 * view.objects() as u128
}

impl Pending {
    /// Each rule may fire.
    pub fn all<F: Facts>(alloc: Global, view: &F) -> Result<Pending, AllocError>
        ensures { IfOk result (Covers (F.problem view.now) (F.state view.now)) }
    {
        let edges = edge_rows(view);
        Ok(Pending {
            one_container: Marks::all(alloc, edges)?,
            alone: Marks::all(alloc, edges)?,
            must_contain: Marks::all(alloc, edges)?,
            contain_count: Marks::all(alloc, edges)?,
            no_container: Marks::all(alloc, view.objects() as u128)?,
            acyclic: Marks::all(alloc, edges)?,
        })
    }

    /// No rule is left to be looked for, where none fires.
    pub fn none<F: Facts>(alloc: Global, view: &F) -> Result<Pending, AllocError>
        requires { IsLeastOf is_of_containment (F.problem view.now) (F.state view.now) None }
        ensures { IfOk result (Covers (F.problem view.now) (F.state view.now)) }
    {
        let edges = edge_rows(view);
        Ok(Pending {
            one_container: Marks::none(alloc, edges)?,
            alone: Marks::none(alloc, edges)?,
            must_contain: Marks::none(alloc, edges)?,
            contain_count: Marks::none(alloc, edges)?,
            no_container: Marks::none(alloc, view.objects() as u128)?,
            acyclic: Marks::none(alloc, edges)?,
        })
    }
}
