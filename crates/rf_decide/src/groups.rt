//! The groups of allowed decisions, as lists of lists.

ghost use Rattle.std.specs.Prelude.{◌≡◌, ◌<◌, ◌≤◌, ◌*◌, ◌^◌, ℕ, length};
ghost use Rattle.rf_decide.specs.Choice.{edges_from, edges_of, kinds_of};
ghost use Rattle.rf_decide.specs.declared.limit.TheConstants.{MOST_OBJECTS};

use crate::lists::{Lists, member_of, total};
use crate::rows::{EdgesFrom, KindsOf};
use rf_rules::Decision;
use rf_state::Facts;

/// Those on the classes of all objects, by object.
#[derive(Drop)]
pub struct Kinds<'v, F: Facts> {
    pub view: &'v F,
}

impl<F: Facts> Lists for Kinds<'_, F> {
    ghost many = { λ it. length (F.state it.view.now).objects };

    ghost list = { λ it o. kinds_of (F.problem it.view.now) (F.state it.view.now) o };

    ghost most = { λ it. 256 };

    fn many(&self) -> u64 {
        self.view.objects()
    }

    fn size(&self, k: u64) -> u64 {
        total(&KindsOf {
            view: self.view,
            object: k,
        })
    }

    fn member(&self, k: u64, place: u64) -> Decision {
        let kinds = KindsOf {
            view: self.view,
            object: k,
        };
        member_of(&kinds, place)
    }
}

/// Those on the edges of a reference, by the object from which they lead.
#[derive(Drop)]
pub struct EdgesOf<'v, F: Facts> {
    pub view: &'v F,
    pub reference: u32,
    ghost few: { length (F.state view.now).objects ≤ MOST_OBJECTS },
}

impl<F: Facts> Lists for EdgesOf<'_, F> {
    ghost many = { λ it. length (F.state it.view.now).objects };

    ghost list = { λ it a. edges_from (F.problem it.view.now) (F.state it.view.now) it.reference a };

    ghost most = { λ it. MOST_OBJECTS };

    fn many(&self) -> u64 {
        self.view.objects()
    }

    fn size(&self, k: u64) -> u64 {
        total(&EdgesFrom {
            view: self.view,
            reference: self.reference,
            object: k,
        })
    }

    fn member(&self, k: u64, place: u64) -> Decision {
        let edges = EdgesFrom {
            view: self.view,
            reference: self.reference,
            object: k,
        };
        member_of(&edges, place)
    }
}

/// Those on the edges of all references, by reference.
#[derive(Drop)]
pub struct Edges<'v, F: Facts> {
    pub view: &'v F,
    ghost few: { length (F.state view.now).objects ≤ MOST_OBJECTS },
}

impl<F: Facts> Lists for Edges<'_, F> {
    ghost many = { λ it. length (F.problem it.view.now).references };

    ghost list = { λ it r. edges_of (F.problem it.view.now) (F.state it.view.now) r };

    ghost most = { λ it. MOST_OBJECTS * MOST_OBJECTS };

    fn many(&self) -> u64 {
        self.view.problem().references.len() as u64
    }

    fn size(&self, k: u64) -> u64 {
        total(&EdgesOf {
            view: self.view,
            reference: k as u32,
        })
    }

    fn member(&self, k: u64, place: u64) -> Decision {
        let edges = EdgesOf {
            view: self.view,
            reference: k as u32,
        };
        member_of(&edges, place)
    }
}
