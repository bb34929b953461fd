//! Two lists that are kept together.

ghost use Rattle.std.specs.Prelude.{◌≡◌, ◌++◌, ◌∷◌, [], length, OnErr, OnOk};
ghost use Rattle.rf_trail.specs.Trail.{items, kept};

use rf_trail::Trail;
use std::alloc::AllocError;

/// Keeps both lists, each of which keeps so many. Where memory runs out, neither is kept.
pub fn commit_both<S: Copy, T: Copy>(
    first: &mut Trail<S>,
    second: &mut Trail<T>,
    many: usize,
) -> Result<(), AllocError>
    requires { many ≡ length (kept first.old) }
    ensures items { items first.new ≡ items first.old }
    ensures other_items { items second.new ≡ items second.old }
    ensures kept { OnOk result (kept first.new ≡ kept first.old ++ items first.old ∷ []) }
    ensures other_kept { OnOk result (kept second.new ≡ kept second.old ++ items second.old ∷ []) }
    ensures unchanged { OnErr result (kept first.new ≡ kept first.old) }
    ensures other_unchanged { OnErr result (kept second.new ≡ kept second.old) }
{
    first.commit()?;
    let kept = second.commit();
    if kept.is_err() {
        first.forget(many);
    }
    kept
}
