//! The checker over lines.

ghost use Rattle.std.specs.Prelude.{◌≡◌, ◌<◌, ◌≤◌, ◌+◌, ◌^◌, ◌↔◌, ◌++◌, ◌∷◌, [], true, length, List, IfOk, IsErr, OnOk};
ghost use Rattle.std.specs.Option.{ForSome};
ghost use Rattle.rf_problem.specs.declared.problem.Problem.{Problem as ProblemValue};
ghost use Rattle.rf_tree.specs.Lines.{CanStand};
ghost use Rattle.rf_tree.specs.Pending.{decisions_in};
ghost use Rattle.rf_tree.specs.Verdicts.{IsChecked, MeansNoGraph};
ghost use Rattle.rf_tree.specs.declared.line.Line.{Line as LineValue};

use crate::pending::Pending;
use rf_eval::Scratch;
use rf_problem::Problem;
use rf_state::State;
use rf_tree::{Checked, Line};
use std::alloc::{AllocError, Global};

/// A checker of the lines of a tree, which are fed to it in order, any number at a time. It keeps one state for each side of
/// a decision that is left to close, and nothing of the lines.
#[derive(Drop)]
pub struct Checker<'p> {
    // What is left to close, where each line so far can stand.
    pub(crate) pending: Pending<'p>,
    // How many of the lines are decisions, where each can stand.
    pub(crate) decisions: u64,
    // How many lines were fed.
    pub(crate) fed: u64,
    // The number, from 0, of the first line that can't stand.
    pub(crate) refused: Option<u64>,
    // Memory ran out.
    pub(crate) failed: bool,
    ghost fewer: { decisions ≤ fed },
    ghost earlier: { ForSome refused (λ k. k < fed) },
}

// How many decisions a line is.
fn decisions_of(line: &Line) -> u64
    ensures counted { result ≡ decisions_in (line.now ∷ []) }
    ensures few { result ≤ 1 }
{
    match line {
        Line::Step(_) | Line::Close(_) => 0,
        Line::Decide(_, _) => 1,
    }
}

impl<'p> Checker<'p> {
    ghost use Rattle.rf_check.specs.Checking.{HasChecked, HasFailed, fed};

    /// A checker of trees of this problem, to which no line was fed.
    pub fn new(alloc: Global, problem: &'p Problem) -> Result<Checker<'p>, AllocError>
        ensures checked { IfOk result (λ c. HasChecked problem.now c []) }
        ensures fed { IfOk result (λ c. fed c ≡ 0) }
    {
        let root = State::root(alloc, problem)?;
        Ok(Checker {
            pending: Pending::new(alloc, Scratch::new(root)),
            decisions: 0,
            fed: 0,
            refused: None,
            failed: false,
        })
    }

    // Goes over one line more. Once one was refused, none is looked at.
    fn step(&mut self, alloc: Global, line: &Line) -> Result<(), AllocError>
        requires few { fed self.old + 1 < 2 ^ 64 }
        ensures checked { OnOk result ((p : ProblemValue) (before : List LineValue) → HasChecked p self.old before
            → HasChecked p self.new (before ++ line.now ∷ [])) }
        ensures fed { OnOk result (fed self.new ≡ fed self.old + 1) }
        ensures most { fed self.new ≤ fed self.old + 1 }
    {
        let number = self.fed;
        self.fed += 1;
        if self.refused.is_some() {
            return Ok(());
        }
        if !self.pending.take(alloc, line)? {
            self.refused = Some(number);
            return Ok(());
        }
        self.decisions += decisions_of(line);
        Ok(())
    }

    // Goes over some more.
    fn go_over(&mut self, alloc: Global, lines: &[Line]) -> Result<(), AllocError>
        requires few { fed self.old + length lines.now < 2 ^ 64 }
        ensures checked { OnOk result ((p : ProblemValue) (before : List LineValue) → HasChecked p self.old before
            → HasChecked p self.new (before ++ lines.now)) }
        ensures fed { OnOk result (fed self.new ≡ fed self.old + length lines.now) }
        ensures most { fed self.new ≤ fed self.old + length lines.now }
    {
        for line in lines {
            self.step(alloc, line)?;
        }
        Ok(())
    }

    /// Goes over more lines: whether all so far can stand. After a line that can't, nothing that is fed changes the
    /// answer. Where memory runs out, the answer is an `AllocError`, and so is each later one.
    pub fn feed(&mut self, alloc: Global, lines: &[Line]) -> Result<bool, AllocError>
        requires few { fed self.old + length lines.now < 2 ^ 64 }
        ensures checked { OnOk result ((p : ProblemValue) (before : List LineValue) → HasChecked p self.old before
            → HasChecked p self.new (before ++ lines.now)) }
        ensures stands { IfOk result (λ stands. (p : ProblemValue) (before : List LineValue) → HasChecked p self.old before
            → (stands ≡ true) ↔ CanStand p (before ++ lines.now)) }
        ensures fed { OnOk result (fed self.new ≡ fed self.old + length lines.now) }
        ensures most { fed self.new ≤ fed self.old + length lines.now }
        ensures going { HasFailed self.old → IsErr result }
        ensures failed { IsErr result → HasFailed self.new }
    {
        if self.failed {
            return Err(AllocError);
        }
        if let Err(error) = self.go_over(alloc, lines) {
            self.failed = true;
            return Err(error);
        }
        Ok(self.refused.is_none())
    }

    /// What the lines are; where they are refuted, no graph satisfies the problem. The answer is an `AllocError` exactly where an earlier call of `feed` answered one.
    pub fn finish(&self) -> Result<Checked, AllocError>
        ensures checked { IfOk result (λ checked. (p : ProblemValue) (lines : List LineValue) → HasChecked p self.now lines
            → IsChecked p lines checked) }
        ensures sound { IfOk result (λ checked. (p : ProblemValue) (lines : List LineValue) → HasChecked p self.now lines
            → MeansNoGraph p checked) }
        ensures failed { IsErr result ↔ HasFailed self.now }
    {
        if self.failed {
            return Err(AllocError);
        }
        Ok(match self.refused {
            Some(k) => Checked::Rejected(k),
            None if self.pending.is_empty() => Checked::Refuted(self.decisions),
            None => Checked::Unfinished(self.decisions),
        })
    }
}
