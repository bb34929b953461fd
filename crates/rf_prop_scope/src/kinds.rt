//! The rows of each kind of rule, which are the scopes.

ghost use Rattle.std.specs.Prelude.{◌≡◌, ◌<◌, IfOk, length};
ghost use Rattle.rf_pending.specs.Rows.{Covers};
ghost use Rattle.rf_prop_scope.specs.Kinds.{first_of_scope, least_of_scopes};

use rf_pending::{Marks, Rows};
use rf_rules::Rule;
use rf_rules::scopes::{scope_bottom_row, scope_in_row, scope_out_row, scope_top_row, under};
use rf_state::Facts;
use std::alloc::{AllocError, Global};

/// A kind of rule.
#[derive(Clone, Copy, Debug)]
pub enum Kind {
    Under,
    Top,
    Bottom,
    Out,
    In,
}

#[derive(Drop)]
struct Scopes<'v, F: Facts> {
    view: &'v F,
    kind: Kind,
}

impl<F: Facts> Scopes<'_, F> {
    // The first rule of a scope.
    fn first_of_scope(&self, z: u32) -> Option<Rule>
        requires { z < length (F.problem self.now.view.now).scopes }
        ensures { result ≡ first_of_scope (F.problem self.now.view.now) (F.state self.now.view.now) self.now.kind z }
    {
        match self.kind {
            Kind::Under => {
                if under(self.view, z) {
                    Some(Rule::Under(z))
                } else {
                    None
                }
            }
            Kind::Top => match scope_top_row(self.view, z) {
                Some(o) => Some(Rule::ScopeTop(z, o)),
                None => None,
            },
            Kind::Bottom => match scope_bottom_row(self.view, z) {
                Some(o) => Some(Rule::ScopeBottom(z, o)),
                None => None,
            },
            Kind::Out => match scope_out_row(self.view, z) {
                Some(o) => Some(Rule::ScopeOut(z, o)),
                None => None,
            },
            Kind::In => match scope_in_row(self.view, z) {
                Some(o) => Some(Rule::ScopeIn(z, o)),
                None => None,
            },
        }
    }
}

impl<F: Facts> Rows for Scopes<'_, F> {
    ghost use Rattle.std.specs.Prelude.{length};
    ghost use Rattle.rf_prop_scope.specs.Kinds.{first_of_scope};

    ghost many = { λ rows. length (F.problem rows.view.now).scopes };

    ghost found = { λ rows z. first_of_scope (F.problem rows.view.now) (F.state rows.view.now) rows.kind z };

    fn find(&self, _alloc: Global, row: u64) -> Result<Option<Rule>, AllocError> {
        Ok(self.first_of_scope(row as u32))
    }
}

/// The least rule of a kind that fires.
pub fn least_of<F: Facts>(
    alloc: Global,
    view: &F,
    kind: Kind,
    marks: &mut Marks,
) -> Result<Option<Rule>, AllocError>
    requires { Covers (length (F.problem view.now).scopes) (first_of_scope (F.problem view.now) (F.state view.now) kind) marks.old }
    ensures least { IfOk result (λ rule. rule ≡ least_of_scopes (F.problem view.now) (F.state view.now) kind) }
    ensures covers { Covers (length (F.problem view.now).scopes) (first_of_scope (F.problem view.now) (F.state view.now) kind) marks.new }
{
    rf_pending::least(alloc, &Scopes { view, kind }, marks)
}
