//! Which rules of numbers of edges may fire.

ghost use Rattle.std.specs.Prelude.{◌≡◌, ◌*◌, IfOk, None, length};
ghost use Rattle.rf_pending.specs.Families.{IsLeastOf, is_of_degrees};
ghost use Rattle.rf_prop_mult.specs.Pending.{Covers};

use rf_pending::Marks;
use rf_state::Facts;
use std::alloc::{AllocError, Global};

/// The rows in which rules of numbers of edges may fire, one set of marks for each kind of rule.
#[derive(Debug, Drop)]
pub struct Pending {
    pub full: Marks,
    pub room: Marks,
    pub need: Marks,
    pub need_count: Marks,
    pub type_low: Marks,
}

// How many rows of references and objects there are.
fn edge_rows<F: Facts>(view: &F) -> u128
    ensures { result ≡ length (F.problem view.now).references * length (F.state view.now).objects }
{
    view.problem().references.len() as u128 * view.objects() as u128
}

impl Pending {
    /// Each rule may fire.
    pub fn all<F: Facts>(alloc: Global, view: &F) -> Result<Pending, AllocError>
        ensures { IfOk result (Covers (F.problem view.now) (F.state view.now)) }
    {
        let edges = edge_rows(view);
        Ok(Pending {
            full: Marks::all(alloc, edges)?,
            room: Marks::all(alloc, edges)?,
            need: Marks::all(alloc, edges)?,
            need_count: Marks::all(alloc, edges)?,
            type_low: Marks::all(alloc, edges)?,
        })
    }

    /// No rule is left to be looked for, where none fires.
    pub fn none<F: Facts>(alloc: Global, view: &F) -> Result<Pending, AllocError>
        requires { IsLeastOf is_of_degrees (F.problem view.now) (F.state view.now) None }
        ensures { IfOk result (Covers (F.problem view.now) (F.state view.now)) }
    {
        let edges = edge_rows(view);
        Ok(Pending {
            full: Marks::none(alloc, edges)?,
            room: Marks::none(alloc, edges)?,
            need: Marks::none(alloc, edges)?,
            need_count: Marks::none(alloc, edges)?,
            type_low: Marks::none(alloc, edges)?,
        })
    }
}
