//! Steps of a script: edits, and what rules do that fire.

ghost use Rattle.std.specs.Prelude.{◌≡◌, OnOk};
ghost use Rattle.rf_search.specs.Pending.{Covers};

use crate::scanned::Scanned;
use rf_random_edits::{Random, edit};
use rf_rules::{Rule, apply, fires};
use rf_search::{Pending, change_of, touch};
use rf_state::Edit;
use std::alloc::{AllocError, Global};

// The most objects that a state is given.
const MOST: u64 = 8;

// Does what a rule does, if it fires and is no closing.
fn follow<E: Edit>(
    alloc: Global,
    e: &mut E,
    pending: &mut Pending,
    rule: &Rule,
) -> Result<(), AllocError>
    requires { Covers (E.problem e.old) (E.state e.old) pending.old }
    ensures { OnOk result (Covers (E.problem e.new) (E.state e.new) pending.new) }
{
    if rule.is_closing() || !fires(alloc, e, rule)? {
        return Ok(());
    }
    let change = change_of(e, rule);
    apply(alloc, e, rule)?;
    touch(alloc, e, pending, change)
}

// Makes an edit.
fn change<E: Edit>(
    alloc: Global,
    e: &mut E,
    pending: &mut Pending,
    random: &mut Random,
) -> Result<(), AllocError>
    requires { Covers (E.problem e.old) (E.state e.old) pending.old }
    ensures { OnOk result (Covers (E.problem e.new) (E.state e.new) pending.new) }
{
    match edit(alloc, e, random, MOST)? {
        None => Ok(()),
        Some(change) => touch(alloc, e, pending, change),
    }
}

// The rule of some family that fires.
fn some_rule(scanned: &Scanned, random: &mut Random) -> Option<Rule> {
    let families = scanned.families();
    match random.below(7) {
        5 | 6 => scanned.least(),
        family => families[family as usize],
    }
}

/// Makes a step, and touches what it changes.
pub fn step<E: Edit>(
    alloc: Global,
    e: &mut E,
    pending: &mut Pending,
    scanned: &Scanned,
    random: &mut Random,
) -> Result<(), AllocError>
    requires { Covers (E.problem e.old) (E.state e.old) pending.old }
    ensures { OnOk result (Covers (E.problem e.new) (E.state e.new) pending.new) }
{
    match some_rule(scanned, random) {
        Some(rule) if random.below(4) != 0 => follow(alloc, e, pending, &rule),
        _ => change(alloc, e, pending, random),
    }
}
