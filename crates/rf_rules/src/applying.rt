//! What a rule does.

ghost use Rattle.std.specs.Prelude.{◌≡◌, true, false, OnErr, OnOk};
ghost use Rattle.rf_rules.specs.Rules.{after, fires, is_closing};

use crate::Rule;
use crate::editing::apply_effect;
use crate::effects::effect_of;
use rf_state::Edit;
use std::alloc::{AllocError, Global};

/// Does what a rule does, by one edit. Where memory runs out, the state is as before.
pub fn apply<E: Edit>(alloc: Global, edit: &mut E, rule: &Rule) -> Result<(), AllocError>
    requires fires { fires (E.problem edit.old) (E.state edit.old) rule.now ≡ true }
    requires effect { is_closing rule.now ≡ false }
    ensures problem { E.problem edit.new ≡ E.problem edit.old }
    ensures kept { E.kept edit.new ≡ E.kept edit.old }
    ensures after { OnOk result (E.state edit.new ≡ after (E.problem edit.old) (E.state edit.old) rule.now) }
    ensures unchanged { OnErr result (E.state edit.new ≡ E.state edit.old) }
{
    let effect = effect_of(edit, rule);
    apply_effect(alloc, edit, effect)
}
