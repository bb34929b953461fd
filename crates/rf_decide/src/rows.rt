//! The allowed decisions of a state, as lists of lists.

ghost use Rattle.std.specs.Prelude.{◌≡◌, ◌<◌, ◌≤◌, ◌*◌, ◌^◌, ℕ, length};
ghost use Rattle.rf_rules.specs.Decisions.{allowed};
ghost use Rattle.rf_decide.specs.Choice.{if_allowed};

use crate::lists::{Lists, member_of, total};
use rf_rules::{Decision, allowed};
use rf_state::Facts;

// How many decisions there are of one that may be allowed.
fn one_if_allowed<F: Facts>(view: &F, decision: &Decision) -> u64
    ensures size { result ≡ length (if_allowed (F.problem view.now) (F.state view.now) decision.now) }
    ensures few { result ≤ 1 }
{
    if allowed(view, decision) { 1 } else { 0 }
}

/// Those on fresh objects, by object.
#[derive(Drop)]
pub struct FreshObjects<'v, F: Facts> {
    pub view: &'v F,
}

impl<F: Facts> Lists for FreshObjects<'_, F> {
    ghost use Rattle.rf_rules.specs.declared.decision.Decision.TheVariants.{Fresh};

    ghost many = { λ it. length (F.state it.view.now).objects };

    ghost list = { λ it o. if_allowed (F.problem it.view.now) (F.state it.view.now) (Fresh o) };

    ghost most = { λ it. 1 };

    fn many(&self) -> u64 {
        self.view.objects()
    }

    fn size(&self, k: u64) -> u64 {
        one_if_allowed(self.view, &Decision::Fresh(k))
    }

    fn member(&self, k: u64, place: u64) -> Decision {
        Decision::Fresh(k)
    }
}

/// Those on the class of an object, by class.
#[derive(Drop)]
pub struct KindsOf<'v, F: Facts> {
    pub view: &'v F,
    pub object: u64,
}

impl<F: Facts> Lists for KindsOf<'_, F> {
    ghost use Rattle.rf_rules.specs.declared.decision.Decision.TheVariants.{Kind};

    ghost many = { λ it. length (F.problem it.view.now).classes };

    ghost list = { λ it c. if_allowed (F.problem it.view.now) (F.state it.view.now) (Kind it.object c) };

    ghost most = { λ it. 1 };

    fn many(&self) -> u64 {
        self.view.problem().classes.as_slice().len() as u64
    }

    fn size(&self, k: u64) -> u64 {
        one_if_allowed(self.view, &Decision::Kind(self.object, k as u32))
    }

    fn member(&self, k: u64, place: u64) -> Decision {
        Decision::Kind(self.object, k as u32)
    }
}

/// Those on the edges of a reference from an object, by the object to which they lead.
#[derive(Drop)]
pub struct EdgesFrom<'v, F: Facts> {
    pub view: &'v F,
    pub reference: u32,
    pub object: u64,
}

impl<F: Facts> Lists for EdgesFrom<'_, F> {
    ghost use Rattle.rf_rules.specs.declared.decision.Decision.TheVariants.{Ref};

    ghost many = { λ it. length (F.state it.view.now).objects };

    ghost list = { λ it b. if_allowed (F.problem it.view.now) (F.state it.view.now) (Ref it.reference it.object b) };

    ghost most = { λ it. 1 };

    fn many(&self) -> u64 {
        self.view.objects()
    }

    fn size(&self, k: u64) -> u64 {
        one_if_allowed(self.view, &Decision::Ref(self.reference, self.object, k))
    }

    fn member(&self, k: u64, place: u64) -> Decision {
        Decision::Ref(self.reference, self.object, k)
    }
}
