//! The checker as a judge of whole lists of lines.

use crate::Checker;
use rf_problem::Problem;
use rf_tree::{Checked, Line, TreeJudge};
use std::alloc::{AllocError, Global};

/// Judges lists of lines by a checker of its own for each.
#[derive(Clone, Copy, Debug)]
pub struct CheckerJudge;

impl TreeJudge for CheckerJudge {
    fn judge(
        &mut self,
        alloc: Global,
        problem: &Problem,
        lines: &[Line],
    ) -> Result<Checked, AllocError> {
        let mut checker = Checker::new(alloc, problem)?;
        checker.feed(alloc, lines)?;
        checker.finish()
    }
}
