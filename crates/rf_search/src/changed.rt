//! What a rule changes.

ghost use Rattle.std.specs.Prelude.{◌≡◌, true};
ghost use Rattle.rf_rules.specs.Rules.{fits, instance_of};
ghost use Rattle.rf_search.specs.Changed.{change_by};

use rf_pending::Change;
use rf_rules::predicates::forced_effect;
use rf_rules::{Effect, End, Rule};
use rf_state::Facts;

// What an effect changes.
fn change_by(effect: Effect) -> Change
    ensures { result ≡ change_by effect }
{
    match effect {
        Effect::Close => Change::Count(0),
        Effect::AtMost(o, _) | Effect::AtLeast(o, _) => Change::Count(o),
        Effect::Keep(o, _) | Effect::Lose(o, _) => Change::Candidates(o),
        Effect::Merge(r, a, b, _) => Change::Fact(r, a, b),
    }
}

/// What a rule changes whose numbers are in range.
pub fn change_of<F: Facts>(view: &F, rule: &Rule) -> Change
    requires { fits (F.problem view.now) (F.state view.now) rule.now ≡ true }
    ensures { result ≡ change_by (instance_of (F.problem view.now) (F.state view.now) rule.now).effect }
{
    let problem = view.problem();
    match *rule {
        Rule::Empty(_) | Rule::Under(_) | Rule::Broken(_, _) => Change::Count(0),
        Rule::NoClass(o) | Rule::ScopeTop(_, o) | Rule::ScopeBottom(_, o) => Change::Count(o),
        Rule::Src(_, o, _) | Rule::Tgt(_, _, o) | Rule::TypeLow(_, o) => Change::Candidates(o),
        Rule::NoContainer(o) | Rule::ScopeOut(_, o) | Rule::ScopeIn(_, o) => Change::Candidates(o),
        Rule::Clash(_, _, o, End::Target) | Rule::Clash(_, o, _, End::Source) => Change::Count(o),
        Rule::Full(r, a, b) | Rule::Need(r, a, b) => Change::Fact(r, a, b),
        Rule::MustContain(r, a, b) | Rule::Acyclic(r, a, b) => Change::Fact(r, a, b),
        Rule::Room(_, _, o) | Rule::NeedCount(_, _, o) => Change::Count(o),
        Rule::Alone(_, o, _) | Rule::ContainCount(_, o, _) => Change::Count(o),
        Rule::OneContainer(_, _, b, q, c) => Change::Fact(q, c, b),
        Rule::Forced(q, k, j, objects) => change_by(forced_effect(problem, q, k, j, objects)),
    }
}
