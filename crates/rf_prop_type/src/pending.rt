//! Which rules of counts and types may fire.

ghost use Rattle.std.specs.Prelude.{◌≡◌, ◌*◌, IfOk, None, length};
ghost use Rattle.rf_pending.specs.Families.{IsLeastOf, is_of_types};
ghost use Rattle.rf_prop_type.specs.Pending.{Covers};

use rf_pending::Marks;
use rf_state::Facts;
use std::alloc::{AllocError, Global};

/// The rows in which rules of counts and types may fire, one set of marks for each kind of rule.
#[derive(Debug, Drop)]
pub struct Pending {
    pub empty: Marks,
    pub no_class: Marks,
    pub src: Marks,
    pub tgt: Marks,
    pub clash: Marks,
}

// How many rows of references and objects there are.
fn edge_rows<F: Facts>(view: &F) -> u128
    ensures { result ≡ length (F.problem view.now).references * length (F.state view.now).objects }
{
    view.problem().references.len() as u128 * view.objects() as u128
}

impl Pending {
    /// Each rule may fire.
    pub fn all<F: Facts>(alloc: Global, view: &F) -> Result<Pending, AllocError>
        ensures { IfOk result (Covers (F.problem view.now) (F.state view.now)) }
    {
        let objects = view.objects() as u128;
        let edges = edge_rows(view);
        Ok(Pending {
            empty: Marks::all(alloc, objects)?,
            no_class: Marks::all(alloc, objects)?,
            src: Marks::all(alloc, edges)?,
            tgt: Marks::all(alloc, edges)?,
            clash: Marks::all(alloc, edges)?,
        })
    }

    /// No rule is left to be looked for, where none fires.
    pub fn none<F: Facts>(alloc: Global, view: &F) -> Result<Pending, AllocError>
        requires { IsLeastOf is_of_types (F.problem view.now) (F.state view.now) None }
        ensures { IfOk result (Covers (F.problem view.now) (F.state view.now)) }
    {
        let objects = view.objects() as u128;
        let edges = edge_rows(view);
        Ok(Pending {
            empty: Marks::none(alloc, objects)?,
            no_class: Marks::none(alloc, objects)?,
            src: Marks::none(alloc, edges)?,
            tgt: Marks::none(alloc, edges)?,
            clash: Marks::none(alloc, edges)?,
        })
    }
}
