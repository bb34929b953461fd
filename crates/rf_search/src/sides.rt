//! A side of a decision, taken in a state of which something is known.

ghost use Rattle.std.specs.Prelude.{◌≡◌, ◌<◌, ◌+◌, ◌++◌, ◌∷◌, [], true, not, None, IfOk, OnOk, length, take};
ghost use Rattle.rf_state.specs.State.{State};
ghost use Rattle.rf_rules.specs.Decisions.{allowed, side};
ghost use Rattle.rf_decide.specs.Counted.{IsCounted};
ghost use Rattle.rf_search.specs.Knowledge.{IsKnown};
ghost use Rattle.rf_search.specs.Sides.{change_on};
ghost use Rattle.rf_search.specs.Stack.{CanGoBack, IsRooted, kept_at};

use crate::knowledge::Knowledge;
use crate::untried::Untried;
use rf_pending::Change;
use rf_rules::{Decision, decide};
use rf_state::Edit;
use rf_vstate::Versions;
use std::alloc::{AllocError, Global};

// What a side changes.
fn change_on(decision: &Decision, first: bool) -> Change
    ensures { result ≡ change_on decision.now first }
{
    match (*decision, first) {
        (Decision::Fresh(o), true) => Change::Fresh(o),
        (Decision::Fresh(o), false) => Change::Count(o),
        (Decision::Kind(o, _), _) => Change::Candidates(o),
        (Decision::Ref(r, a, b), _) => Change::Fact(r, a, b),
    }
}

// Takes a side, and makes what is known that of the state after it.
fn take_side<E: Edit>(
    alloc: Global,
    edit: &mut E,
    knowledge: &mut Knowledge,
    decision: &Decision,
    first: bool,
) -> Result<(), AllocError>
    requires allowed { allowed (E.problem edit.old) (E.state edit.old) decision.now ≡ true }
    requires known { IsKnown (E.problem edit.old) (E.state edit.old) knowledge.old }
    ensures problem { E.problem edit.new ≡ E.problem edit.old }
    ensures kept { E.kept edit.new ≡ E.kept edit.old }
    ensures side { OnOk result (E.state edit.new ≡ side (E.problem edit.old) (E.state edit.old) decision.now first) }
    ensures known { OnOk result (IsKnown (E.problem edit.old) (E.state edit.new) knowledge.new) }
{
    decide(alloc, edit, decision, first)?;
    knowledge.touch(alloc, edit, change_on(decision, first))
}

/// Keeps the state, and takes a side of a decision in it. The answer is the decision, to go back to.
pub fn go_on<T: Versions>(
    alloc: Global,
    t: &mut T,
    knowledge: &mut Knowledge,
    decision: &Decision,
    first: bool,
) -> Result<Untried, AllocError>
    requires allowed { allowed (T.problem t.old) (T.state t.old) decision.now ≡ true }
    requires known { IsKnown (T.problem t.old) (T.state t.old) knowledge.old }
    ensures problem { T.problem t.new ≡ T.problem t.old }
    ensures rooted { (root : State) → IsRooted root (T.kept t.old) → IsRooted root (T.kept t.new) }
    ensures version { IfOk result (λ untried. untried.version ≡ length (T.kept t.old)) }
    ensures decision { IfOk result (λ untried. untried.decision ≡ decision.now) }
    ensures first { IfOk result (λ untried. untried.first ≡ first) }
    ensures counted { IfOk result (λ untried. IsCounted (T.problem t.old) (T.state t.old) untried.counted) }
    ensures kept { OnOk result (T.kept t.new ≡ T.kept t.old ++ T.state t.old ∷ []) }
    ensures side { OnOk result (T.state t.new ≡ side (T.problem t.old) (T.state t.old) decision.now first) }
    ensures known { OnOk result (IsKnown (T.problem t.old) (T.state t.new) knowledge.new) }
{
    let counted = knowledge.counted.copied(alloc)?;
    let version = t.commit()?;
    take_side(alloc, t, knowledge, decision, first)?;
    Ok(Untried {
        version,
        decision: *decision,
        first,
        counted,
    })
}

/// Goes back to where a decision was taken, and takes its other side. The answer is what is known there.
pub fn go_back<T: Versions>(
    alloc: Global,
    t: &mut T,
    untried: Untried,
) -> Result<Knowledge, AllocError>
    requires version { untried.version < length (T.kept t.old) }
    requires back { CanGoBack (T.problem t.old) (T.kept t.old) untried }
    ensures problem { T.problem t.new ≡ T.problem t.old }
    ensures kept { T.kept t.new ≡ take (untried.version + 1) (T.kept t.old) }
    ensures side { OnOk result (T.state t.new
        ≡ side (T.problem t.old) (kept_at (T.kept t.old) untried.version) untried.decision (not untried.first)) }
    ensures known { IfOk result (IsKnown (T.problem t.old) (T.state t.new)) }
{
    t.prune(untried.version);
    let mut knowledge = Knowledge::quiet(alloc, t, untried.counted)?;
    take_side(alloc, t, &mut knowledge, &untried.decision, !untried.first)?;
    Ok(knowledge)
}
