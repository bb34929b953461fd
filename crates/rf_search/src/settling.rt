//! Rules applied until none fires.

ghost use Rattle.std.specs.Prelude.{◌≡◌, Some, true, false, IfOk, OnOk};
ghost use Rattle.rf_rules.specs.Rules.{after, is_closing};
ghost use Rattle.rf_search.specs.Knowledge.{IsKnown};
ghost use Rattle.rf_search.specs.Least.{IsLeast};
ghost use Rattle.rf_search.specs.Settled.{Settles};

use crate::changed::change_of;
use crate::knowledge::Knowledge;
use rf_rules::{Rule, apply};
use rf_state::Edit;
use rf_tree::Line;
use std::alloc::{AllocError, Global};

// Applies a rule, and makes what is known that of the state after it.
fn step<E: Edit>(
    alloc: Global,
    edit: &mut E,
    knowledge: &mut Knowledge,
    rule: &Rule,
) -> Result<(), AllocError>
    requires least { IsLeast (E.problem edit.old) (E.state edit.old) (Some rule.now) }
    requires effect { is_closing rule.now ≡ false }
    requires known { IsKnown (E.problem edit.old) (E.state edit.old) knowledge.old }
    ensures problem { E.problem edit.new ≡ E.problem edit.old }
    ensures kept { E.kept edit.new ≡ E.kept edit.old }
    ensures after { OnOk result (E.state edit.new ≡ after (E.problem edit.old) (E.state edit.old) rule.now) }
    ensures known { OnOk result (IsKnown (E.problem edit.new) (E.state edit.new) knowledge.new) }
{
    let change = change_of(edit, rule);
    apply(alloc, edit, rule)?;
    knowledge.touch(alloc, edit, change)
}

/// Applies the least rule that fires, again and again, and appends its line: until that is a closing, which is
/// appended too, and the answer is yes, or until no rule fires, and the answer is no. What is known is
/// right of the state at the end. Where memory runs out, the state and the lines may be any.
pub fn settle_known<E: Edit>(
    alloc: Global,
    edit: &mut E,
    knowledge: &mut Knowledge,
    lines: &mut Vec<Line>,
) -> Result<bool, AllocError>
    requires { IsKnown (E.problem edit.old) (E.state edit.old) knowledge.old }
    ensures problem { E.problem edit.new ≡ E.problem edit.old }
    ensures kept { E.kept edit.new ≡ E.kept edit.old }
    ensures settles { IfOk result (Settles (E.problem edit.old) (E.state edit.old) lines.old.items lines.new.items (E.state edit.new)) }
    ensures known { OnOk result (IsKnown (E.problem edit.old) (E.state edit.new) knowledge.new) }
{
    while let Some(rule) = knowledge.least(alloc, edit)? {
        if rule.is_closing() {
            lines.push(Line::Close(rule))?;
            return Ok(true);
        }
        step(alloc, edit, knowledge, &rule)?;
        lines.push(Line::Step(rule))?;
    }
    Ok(false)
}

/// The same for a state of which nothing is known to be done.
pub fn settle<E: Edit>(
    alloc: Global,
    edit: &mut E,
    lines: &mut Vec<Line>,
) -> Result<bool, AllocError>
    ensures problem { E.problem edit.new ≡ E.problem edit.old }
    ensures kept { E.kept edit.new ≡ E.kept edit.old }
    ensures settles { IfOk result (Settles (E.problem edit.old) (E.state edit.old) lines.old.items lines.new.items (E.state edit.new)) }
{
    let mut knowledge = Knowledge::nothing(alloc, edit)?;
    settle_known(alloc, edit, &mut knowledge, lines)
}
