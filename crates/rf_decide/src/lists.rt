//! Lists of decisions, one after another.

ghost use Rattle.std.specs.Prelude.{◌≡◌, ◌<◌, ◌≤◌, ◌*◌, ◌^◌, length, slice_index_or};
ghost use Rattle.rf_finite.specs.Passing.{joined};
ghost use Rattle.rf_decide.specs.Choice.{no_decision};

use rf_rules::Decision;

/// Lists of decisions, each of a number.
pub trait Lists {
    ghost use Rattle.std.specs.Prelude.{◌≡◌, ◌<◌, ◌≤◌, ℕ, List, length, slice_index_or};
    ghost use Rattle.rf_rules.specs.declared.decision.Decision.{Decision};
    ghost use Rattle.rf_decide.specs.Choice.{no_decision};

    ghost many: { Self → ℕ };

    ghost list: { Self → ℕ → List Decision };

    // The most decisions that a list has.
    ghost most: { Self → ℕ };

    /// How many lists there are.
    fn many(&self) -> u64
        ensures { result ≡ many self.now };

    /// How many decisions a list has.
    fn size(&self, k: u64) -> u64
        requires { k < many self.now }
        ensures size { result ≡ length (list self.now k) }
        ensures few { result ≤ most self.now };

    /// The decision at a place of a list.
    fn member(&self, k: u64, place: u64) -> Decision
        requires list { k < many self.now }
        requires place { place < length (list self.now k) }
        ensures { result ≡ slice_index_or (list self.now k) place no_decision };
}

/// How many decisions all lists have.
pub fn total<L: Lists>(lists: &L) -> u64
    requires { L.many lists.now * L.most lists.now < 2 ^ 64 }
    ensures total { result ≡ length (joined (L.many lists.now) (L.list lists.now)) }
    ensures few { result ≤ L.many lists.now * L.most lists.now }
{
    let mut sum = 0;
    for k in 0..lists.many() {
        sum += lists.size(k);
    }
    sum
}

/// The decision at a place of all lists, one after another.
pub fn member_of<L: Lists>(lists: &L, place: u64) -> Decision
    requires { place < length (joined (L.many lists.now) (L.list lists.now)) }
    ensures { result ≡ slice_index_or (joined (L.many lists.now) (L.list lists.now)) place no_decision }
{
    let mut left = place;
    for k in 0..lists.many() {
        let size = lists.size(k);
        if left < size {
            return lists.member(k, left);
        }
        left -= size;
    }
    Decision::Fresh(0)
}
