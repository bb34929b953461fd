//! The ends of edges that are named together.

ghost use Rattle.std.specs.Prelude.{vec_len};
ghost use Rattle.rf_state.specs.Lists.{AreBelow, AreNumbers};

mod listed;
mod naming;

use std::collections::BTreeMap;

/// Which objects assertions and added facts name together as the ends of an edge, or of the edge back
/// of its opposite. An object is listed as often as it is named.
#[derive(Drop)]
pub struct NamedEnds {
    // The numbers of the objects, in order.
    numbers: Vec<u64>,
    // For a reference and what is named at the first end the objects at the second; None is `*`.
    from: BTreeMap<(u32, Option<u64>), Vec<u64>>,
    // For a reference and what is named at the second end those at the first.
    into: BTreeMap<(u32, Option<u64>), Vec<u64>>,
    ghost own: { AreNumbers (vec_len numbers) numbers.items },
    ghost from_below: { AreBelow (vec_len numbers) from },
    ghost into_below: { AreBelow (vec_len numbers) into },
}
