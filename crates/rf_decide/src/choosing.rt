//! The choice of a decision.

ghost use Rattle.std.specs.Prelude.{◌≡◌, ◌<◌, ◌≤◌, ◌/◌, ◌%◌, ◌==◌, length, true, None, Some, if◌then◌else◌, slice_index_or};
ghost use Rattle.rf_rules.specs.Decisions.{allowed};
ghost use Rattle.rf_decide.specs.Choice.{choices_in, chosen, group, leads, member_at, members, no_decision};
ghost use Rattle.rf_decide.specs.declared.limit.TheConstants.{MOST_OBJECTS};

use crate::Choices;
use crate::groups::{Edges, Kinds};
use crate::lists::{member_of, total};
use crate::rows::FreshObjects;
use rf_rules::Decision;
use rf_state::Facts;

/// Whether the first side of a decision leads.
pub fn leads<F: Facts>(view: &F, decision: &Decision, word: u32) -> bool
    requires { allowed (F.problem view.now) (F.state view.now) decision.now ≡ true }
    ensures { result ≡ leads (F.state view.now) decision.now word }
{
    match *decision {
        Decision::Fresh(o) => {
            let count = view.count(o);
            if count.lo >= 1 {
                true
            } else if count.hi.is_none() {
                false
            } else {
                word % 2 == 0
            }
        }
        Decision::Kind(_, _) => word % 2 == 0,
        Decision::Ref(_, _, _) => word % 8 == 0,
    }
}

/// The first group of decisions of which some is allowed, and how many are.
pub fn choices<F: Facts>(view: &F) -> Choices
    requires { length (F.state view.now).objects ≤ MOST_OBJECTS }
    ensures { result ≡ choices_in (F.problem view.now) (F.state view.now) }
{
    let size = total(&FreshObjects { view });
    if size > 0 {
        return Choices::Group { number: 0, size };
    }
    let size = total(&Kinds { view });
    if size > 0 {
        return Choices::Group { number: 1, size };
    }
    let size = total(&Edges { view });
    if size > 0 {
        return Choices::Group { number: 2, size };
    }
    Choices::Nothing
}

// The decision at a place of a group.
fn member_in<F: Facts>(view: &F, number: u8, place: u64) -> Decision
    requires few { length (F.state view.now).objects ≤ MOST_OBJECTS }
    requires place { place < length (group (F.problem view.now) (F.state view.now) number) }
    ensures { result ≡ slice_index_or (group (F.problem view.now) (F.state view.now) number) place no_decision }
{
    match number {
        0 => member_of(&FreshObjects { view }, place),
        1 => member_of(&Kinds { view }, place),
        _ => member_of(&Edges { view }, place),
    }
}

// The same decision, which is allowed.
fn allowed_member<F: Facts>(view: &F, number: u8, place: u64) -> Decision
    requires few { length (F.state view.now).objects ≤ MOST_OBJECTS }
    requires place { place < length (group (F.problem view.now) (F.state view.now) number) }
    ensures member { result ≡ slice_index_or (group (F.problem view.now) (F.state view.now) number) place no_decision }
    ensures allowed { allowed (F.problem view.now) (F.state view.now) result ≡ true }
{
    member_in(view, number, place)
}

/// The decision at a place, from 0, of the first group of which some is allowed.
pub fn member<F: Facts>(view: &F, k: u64) -> Decision
    requires few { length (F.state view.now).objects ≤ MOST_OBJECTS }
    requires place { k < length (members (F.problem view.now) (F.state view.now)) }
    ensures { result ≡ member_at (F.problem view.now) (F.state view.now) k }
{
    match choices(view) {
        Choices::Group { number, .. } => member_in(view, number, k),
        Choices::Nothing => Decision::Fresh(0),
    }
}

/// The decision that a word takes, and whether its first side leads; none where no decision is allowed.
pub fn choose<F: Facts>(view: &F, word: u32) -> Option<(Decision, bool)>
    requires { length (F.state view.now).objects ≤ MOST_OBJECTS }
    ensures { result ≡ chosen (F.problem view.now) (F.state view.now) word }
{
    match choices(view) {
        Choices::Group { number, size } => {
            let decision = allowed_member(view, number, (word >> 3) as u64 % size);
            Some((decision, leads(view, &decision, word)))
        }
        Choices::Nothing => None,
    }
}
