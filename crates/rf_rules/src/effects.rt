//! What each rule does.

ghost use Rattle.std.specs.Prelude.{◌≡◌, true};
ghost use Rattle.rf_rules.specs.Rules.{fits, instance_of};

use crate::containment::contained_classes;
use crate::degrees::{needed, room_left};
use crate::predicates::forced_effect;
use crate::scopes::{scope_classes, scope_need, scope_room};
use crate::words::classes_below;
use crate::{Effect, End, Rule};
use rf_state::Facts;
use rf_values::Truth;

/// What a rule whose numbers are in range does.
pub fn effect_of<F: Facts>(view: &F, rule: &Rule) -> Effect
    requires { fits (F.problem view.now) (F.state view.now) rule.now ≡ true }
    ensures { result ≡ (instance_of (F.problem view.now) (F.state view.now) rule.now).effect }
{
    let problem = view.problem();
    match *rule {
        Rule::Empty(_) | Rule::Under(_) | Rule::Broken(_, _) => Effect::Close,
        Rule::NoClass(o) => Effect::AtMost(o, 0),
        Rule::Src(r, a, _) => Effect::Keep(a, classes_below(problem, problem.reference(r).source)),
        Rule::Tgt(r, _, b) => Effect::Keep(b, classes_below(problem, problem.reference(r).target)),
        Rule::Clash(_, _, b, End::Target) => Effect::AtMost(b, 0),
        Rule::Clash(_, a, _, End::Source) => Effect::AtMost(a, 0),
        Rule::Full(r, a, b) | Rule::Acyclic(r, a, b) => Effect::Merge(r, a, b, Truth::False),
        Rule::Room(r, a, b) => Effect::AtMost(b, room_left(view, r, a, b)),
        Rule::Need(r, a, b) | Rule::MustContain(r, a, b) => Effect::Merge(r, a, b, Truth::True),
        Rule::NeedCount(r, a, b) => Effect::AtLeast(b, needed(view, r, a, b)),
        Rule::TypeLow(r, a) => Effect::Lose(a, classes_below(problem, problem.reference(r).source)),
        Rule::OneContainer(_, _, b, q, c) => Effect::Merge(q, c, b, Truth::False),
        Rule::Alone(_, a, _) => Effect::AtMost(a, 1),
        Rule::ContainCount(_, a, _) => Effect::AtLeast(a, 1),
        Rule::NoContainer(b) => Effect::Lose(b, contained_classes(problem)),
        Rule::ScopeTop(z, o) => Effect::AtMost(o, scope_room(view, z, o)),
        Rule::ScopeBottom(z, o) => Effect::AtLeast(o, scope_need(view, z, o)),
        Rule::ScopeOut(z, o) => Effect::Lose(o, scope_classes(problem, z)),
        Rule::ScopeIn(z, o) => Effect::Keep(o, scope_classes(problem, z)),
        Rule::Forced(q, k, j, objects) => forced_effect(problem, q, k, j, objects),
    }
}
