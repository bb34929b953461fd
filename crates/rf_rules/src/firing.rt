//! Which rules fire.

ghost use Rattle.std.specs.Prelude.{◌≡◌, IfOk};
ghost use Rattle.rf_rules.specs.Rules.{fires};

use crate::degrees::{Degrees, type_low};
use crate::ranges::{are_objects, is_called, is_edge, is_literal, is_object, is_scoped};
use crate::scopes::Scoped;
use crate::{Rule, containment, predicates, scopes, types};
use rf_state::View;
use std::alloc::{AllocError, Global};

/// Whether a rule fires: its numbers are in range, what it asks for holds, and it closes the state or
/// changes it. Where memory runs out, the answer is an `AllocError`.
pub fn fires<V: View>(alloc: Global, view: &V, rule: &Rule) -> Result<bool, AllocError>
    ensures { IfOk result (λ yes. yes ≡ fires (V.problem view.now) (V.state view.now) rule.now) }
{
    let problem = view.problem();
    let fires = match *rule {
        Rule::Empty(o) => is_object(view, o) && types::empty(view, o),
        Rule::NoClass(o) => is_object(view, o) && types::no_class(view, o),
        Rule::Src(r, a, b) => is_edge(view, r, a, b) && types::src(view, r, a, b),
        Rule::Tgt(r, a, b) => is_edge(view, r, a, b) && types::tgt(view, r, a, b),
        Rule::Clash(r, a, b, end) => is_edge(view, r, a, b) && types::clash(view, r, a, b, end),
        Rule::Full(r, a, b) => is_edge(view, r, a, b) && Degrees::of(view, r, a).full(b),
        Rule::Room(r, a, b) => is_edge(view, r, a, b) && Degrees::of(view, r, a).room(b),
        Rule::Need(r, a, b) => is_edge(view, r, a, b) && Degrees::of(view, r, a).need(b),
        Rule::NeedCount(r, a, b) => is_edge(view, r, a, b) && Degrees::of(view, r, a).need_count(b),
        Rule::TypeLow(r, a) => is_edge(view, r, a, a) && type_low(view, r, a),
        Rule::OneContainer(r, a, b, q, c) => {
            is_edge(view, r, a, b)
                && is_edge(view, q, c, b)
                && containment::one_container(view, r, a, b, q, c)
        }
        Rule::Alone(r, a, b) => is_edge(view, r, a, b) && containment::alone(view, r, a, b),
        Rule::MustContain(r, a, b) => {
            is_edge(view, r, a, b) && containment::must_contain(view, r, a, b)
        }
        Rule::ContainCount(r, a, b) => {
            is_edge(view, r, a, b) && containment::contain_count(view, r, a, b)
        }
        Rule::NoContainer(b) => is_object(view, b) && containment::no_container(view, b),
        Rule::Acyclic(r, a, b) => {
            is_edge(view, r, a, b) && containment::acyclic(alloc, view, r, a, b)?
        }
        Rule::Under(z) => (z as usize) < problem.scopes.len() && scopes::under(view, z),
        Rule::ScopeTop(z, o) => is_scoped(view, z, o) && Scoped::of(view, z).top(o),
        Rule::ScopeBottom(z, o) => is_scoped(view, z, o) && Scoped::of(view, z).bottom(o),
        Rule::ScopeOut(z, o) => is_scoped(view, z, o) && Scoped::of(view, z).outside(o),
        Rule::ScopeIn(z, o) => is_scoped(view, z, o) && Scoped::of(view, z).inside(o),
        Rule::Broken(q, objects) => {
            is_called(problem, q, objects.as_slice())
                && are_objects(view, objects.as_slice())
                && predicates::broken(alloc, view, q, objects)?
        }
        Rule::Forced(q, k, j, objects) => {
            is_literal(problem, q, k, j, objects.as_slice())
                && are_objects(view, objects.as_slice())
                && predicates::forced(alloc, view, q, k, j, objects)?
        }
    };
    Ok(fires)
}
