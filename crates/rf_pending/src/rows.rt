//! Rows of rules, and the least rule that fires among those of marked rows.

ghost use Rattle.std.specs.Prelude.{◌≡◌, IfOk};
ghost use Rattle.rf_finite.specs.Range.{first_below};
ghost use Rattle.rf_pending.specs.Rows.{Covers};

use crate::Marks;
use rf_rules::Rule;
use std::alloc::{AllocError, Global};

/// Rows of rules, each of which is looked through for its least rule that fires.
pub trait Rows {
    ghost use Rattle.std.specs.Prelude.{◌≡◌, ◌<◌, ℕ, Option, IfOk};
    ghost use Rattle.rf_rules.specs.declared.rule.Rule.{Rule};

    ghost many: { Self → ℕ };

    ghost found: { Self → ℕ → Option Rule };

    /// The least rule of a row that fires. Where memory runs out, the answer is an `AllocError`.
    fn find(&self, alloc: Global, row: u64) -> Result<Option<Rule>, AllocError>
        requires { row < many self.now }
        ensures { IfOk result (λ rule. rule ≡ found self.now row) };
}

/// The least rule of all rows that fires, where each row in which one does is marked. Rows in which none is found
/// are marked no longer. After running out of memory the marks serve as before.
pub fn least<R: Rows>(
    alloc: Global,
    rows: &R,
    marks: &mut Marks,
) -> Result<Option<Rule>, AllocError>
    requires { Covers (R.many rows.now) (R.found rows.now) marks.old }
    ensures least { IfOk result (λ rule. rule ≡ first_below (R.many rows.now) (R.found rows.now)) }
    ensures covers { Covers (R.many rows.now) (R.found rows.now) marks.new }
{
    for k in marks.start..marks.rows.len() {
        if marks.rows[k] {
            if let Some(rule) = rows.find(alloc, k as u64)? {
                marks.start = k;
                return Ok(Some(rule));
            }
            marks.rows[k] = false;
        }
    }
    marks.start = marks.rows.len();
    Ok(None)
}
