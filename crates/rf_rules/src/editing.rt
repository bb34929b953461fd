//! What an effect does to a state.

ghost use Rattle.std.specs.Prelude.{◌≡◌, OnOk, OnErr};
ghost use Rattle.rf_rules.specs.Applying.{IsApplicable};
ghost use Rattle.rf_rules.specs.Effects.{after_effect};

use crate::Effect;
use rf_state::Edit;
use rf_values::Count;
use std::alloc::{AllocError, Global};

/// Does an effect to a state, by at most one edit. A closing leaves the state as it is.
pub fn apply_effect<E: Edit>(alloc: Global, e: &mut E, effect: Effect) -> Result<(), AllocError>
    requires { IsApplicable (E.problem e.old) (E.state e.old) effect }
    ensures problem { E.problem e.new ≡ E.problem e.old }
    ensures kept { E.kept e.new ≡ E.kept e.old }
    ensures after { OnOk result (E.state e.new ≡ after_effect (E.state e.old) effect) }
    ensures unchanged { OnErr result (E.state e.new ≡ E.state e.old) }
{
    match effect {
        Effect::Close => Ok(()),
        Effect::AtMost(o, n) => e.narrow(alloc, o, Count { lo: 0, hi: Some(n) }),
        Effect::AtLeast(o, n) => e.narrow(alloc, o, Count { lo: n, hi: None }),
        Effect::Keep(o, classes) => e.keep(alloc, o, classes),
        Effect::Lose(o, classes) => {
            let left = e.candidates(o).without(classes);
            e.keep(alloc, o, left)
        }
        Effect::Merge(r, a, b, v) => e.merge(alloc, r, a, b, v),
    }
}
