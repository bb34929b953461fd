//! What a checker says of a tree.

ghost use Rattle.std.specs.Prelude.{IfOk};
ghost use Rattle.rf_tree.specs.Verdicts.{IsChecked, MeansNoGraph};

use crate::Line;
use rf_problem::Problem;
use std::alloc::{AllocError, Global};

/// What a checker says of the lines of a tree.
#[derive(Clone, Copy, Debug, PartialEq, Eq)]
pub enum Checked {
    /// They close all that the problem leaves, with so many decisions.
    Refuted(u64),
    /// More lines may come; so many decisions stand among them.
    Unfinished(u64),
    /// The line of this number, counted from 0, is the first that can't stand.
    Rejected(u64),
}

/// Who says what lines are as a tree of a problem.
pub trait TreeJudge {
    /// What the lines are. Where memory runs out, the answer is an `AllocError`.
    fn judge(
        &mut self,
        alloc: Global,
        problem: &Problem,
        lines: &[Line],
    ) -> Result<Checked, AllocError>
        ensures checked { IfOk result (IsChecked problem.now lines.now) }
        ensures sound { IfOk result (MeansNoGraph problem.now) };
}
