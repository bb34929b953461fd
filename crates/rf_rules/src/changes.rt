//! Whether an effect would change a state.

ghost use Rattle.std.specs.Prelude.{◌≡◌, ◌<◌, length};
ghost use Rattle.rf_rules.specs.Effects.{has_effect};
ghost use Rattle.rf_rules.specs.declared.effect.Effect.TheVariants.{AtLeast, AtMost, Keep, Lose};

use crate::words::{hi, lo};
use rf_state::Facts;
use rf_values::ClassSet;

/// Whether an object may have more than `n` nodes.
pub fn may_exceed<F: Facts>(view: &F, o: u64, n: u64) -> bool
    requires { o < length (F.state view.now).objects }
    ensures { result ≡ has_effect (F.state view.now) (AtMost o n) }
{
    match hi(view, o) {
        None => true,
        Some(end) => n < end,
    }
}

/// Whether it may have fewer than `n`, by its lower end.
pub fn may_fall_short<F: Facts>(view: &F, o: u64, n: u64) -> bool
    requires { o < length (F.state view.now).objects }
    ensures { result ≡ has_effect (F.state view.now) (AtLeast o n) }
{
    lo(view, o) < n
}

/// Whether it has a candidate outside of a set.
pub fn has_other<F: Facts>(view: &F, o: u64, classes: ClassSet) -> bool
    requires { o < length (F.state view.now).objects }
    ensures { result ≡ has_effect (F.state view.now) (Keep o classes) }
{
    let candidates = view.candidates(o);
    candidates.both(classes) != candidates
}

/// Whether it has one inside.
pub fn has_one_of<F: Facts>(view: &F, o: u64, classes: ClassSet) -> bool
    requires { o < length (F.state view.now).objects }
    ensures { result ≡ has_effect (F.state view.now) (Lose o classes) }
{
    let candidates = view.candidates(o);
    candidates.without(classes) != candidates
}
