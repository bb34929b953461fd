//! The allowed decisions on edges, by reference and object.

ghost use Rattle.std.specs.Prelude.{◌≡◌, ◌<◌, ◌≤◌, length};
ghost use Rattle.rf_decide.specs.Counted.{edge_row};
ghost use Rattle.rf_decide.specs.declared.limit.TheConstants.{MOST_OBJECTS};

use crate::lists::{Lists, member_of, total};
use crate::rows::EdgesFrom;
use rf_rules::Decision;
use rf_state::Facts;

/// Those on the edges of all references, with a list for each reference and object. The lists are numbered
/// reference by reference.
#[derive(Drop)]
pub struct EdgeRows<'v, F: Facts> {
    pub view: &'v F,
    ghost few: { length (F.state view.now).objects ≤ MOST_OBJECTS },
}

impl<F: Facts> Lists for EdgeRows<'_, F> {
    ghost use Rattle.std.specs.Prelude.{◌*◌};

    ghost many = { λ it. length (F.problem it.view.now).references * length (F.state it.view.now).objects };

    ghost list = { λ it. edge_row (F.problem it.view.now) (F.state it.view.now) };

    ghost most = { λ it. MOST_OBJECTS };

    fn many(&self) -> u64 {
        self.view.problem().references.len() as u64 * self.view.objects()
    }

    fn size(&self, k: u64) -> u64 {
        let objects = self.view.objects();
        total(&EdgesFrom {
            view: self.view,
            reference: (k / objects) as u32,
            object: k % objects,
        })
    }

    fn member(&self, k: u64, place: u64) -> Decision {
        let objects = self.view.objects();
        let edges = EdgesFrom {
            view: self.view,
            reference: (k / objects) as u32,
            object: k % objects,
        };
        member_of(&edges, place)
    }
}
