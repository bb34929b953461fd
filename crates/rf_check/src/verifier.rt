//! The verifier of documents.

ghost use Rattle.std.specs.Prelude.{◌≡◌, ◌≤◌, ◌+◌, ◌^◌, ◌++◌, [], List, ℕ, length, None, Ok, Some, IfOk, IsOkAnd, OnOk};
ghost use Rattle.rf_problem.specs.declared.problem.Problem.{Problem as ProblemValue};
ghost use Rattle.rf_tree.specs.Lines.{CanStand};
ghost use Rattle.rf_tree.specs.Readers.{HasRead, fed as bytes_fed};
ghost use Rattle.rf_tree.specs.Reading.{MeetsBadLine};
ghost use Rattle.rf_tree.specs.declared.line.Line.{Line as LineValue};

use crate::{Checker, TreeVerdict};
use rf_problem::Problem;
use rf_tree::{Checked, Line, TreeError, TreeReader};
use std::alloc::{AllocError, Global};

/// A verifier of documents, whose bytes are fed to it in order, in any pieces. Beside a checker it keeps the line that
/// hasn't ended.
#[derive(Drop)]
pub struct TreeVerifier<'p> {
    reader: TreeReader,
    checker: Checker<'p>,
    ghost fewer: { checker.fed ≤ bytes_fed reader },
}

impl<'p> TreeVerifier<'p> {
    ghost use Rattle.rf_check.specs.Checking.{HasChecked, fed as lines_fed};
    ghost use Rattle.rf_check.specs.Documents.{IsRefusedAt, IsTreeVerdict, MeetsRejected};
    ghost use Rattle.rf_check.specs.Verifying.{HasJudged, fed};

    /// A verifier of trees of this problem, to which no byte was fed.
    pub fn new(alloc: Global, problem: &'p Problem) -> Result<TreeVerifier<'p>, AllocError>
        ensures judged { IfOk result (λ v. HasJudged problem.now v []) }
        ensures fed { IfOk result (λ v. fed v ≡ 0) }
    {
        let checker = Checker::new(alloc, problem)?;
        Ok(TreeVerifier {
            reader: TreeReader::new(),
            checker,
        })
    }

    // Goes over lines of the tree: the number that the first one that can't stand has in the document.
    fn check(&mut self, alloc: Global, lines: &[Line]) -> Result<Option<u64>, AllocError>
        requires few { lines_fed self.old.checker + length lines.now ≤ fed self.old }
        requires bytes { fed self.old ≤ 2 ^ 62 }
        ensures reader { self.new.reader ≡ self.old.reader }
        ensures checked { OnOk result ((p : ProblemValue) (before : List LineValue) → HasChecked p self.old.checker before
            → HasChecked p self.new.checker (before ++ lines.now)) }
        ensures stand { result ≡ Ok None → (p : ProblemValue) (before : List LineValue) → HasChecked p self.old.checker before
            → CanStand p (before ++ lines.now) }
        ensures refused { (line : ℕ) → result ≡ Ok (Some line) → (p : ProblemValue) (before : List LineValue)
            → HasChecked p self.old.checker before → IsRefusedAt p (before ++ lines.now) line }
    {
        self.checker.feed(alloc, lines)?;
        Ok(match self.checker.refused {
            Some(number) => Some(number + 2),
            None => None,
        })
    }

    // The number of the bad line that was met, if one was. A reader tells it where nothing more is fed to it.
    fn bad_line(&mut self, alloc: Global) -> Result<Option<u64>, AllocError>
        requires bytes { fed self.old ≤ 2 ^ 62 }
        ensures checker { self.new.checker ≡ self.old.checker }
        ensures fed { result ≡ Ok None → fed self.new ≡ fed self.old }
        ensures read { result ≡ Ok None → (bytes : List ℕ) (lines : List LineValue) → HasRead self.old.reader bytes lines
            → HasRead self.new.reader bytes lines }
        ensures good { result ≡ Ok None → (bytes : List ℕ) (lines : List LineValue) → HasRead self.old.reader bytes lines
            → (line : ℕ) → MeetsBadLine bytes line → ⊥ }
        ensures bad { (line : ℕ) → result ≡ Ok (Some line) → (bytes : List ℕ) (lines : List LineValue)
            → HasRead self.old.reader bytes lines → MeetsBadLine bytes line }
    {
        match self.reader.feed(alloc, &[]) {
            Ok(_) => Ok(None),
            Err(TreeError::BadLine(line)) => Ok(Some(line)),
            Err(TreeError::Memory) => Err(AllocError),
        }
    }

    /// Goes over more bytes of the document: the number, counted from 1, of the rejected line that is met now, if one is. Where
    /// one was met or memory ran out, the verifier is of no more use.
    pub fn feed(&mut self, alloc: Global, piece: &[u8]) -> Result<Option<u64>, AllocError>
        requires few { fed self.old + length piece.now ≤ 2 ^ 62 }
        ensures going { result ≡ Ok None → (p : ProblemValue) (bytes : List ℕ) → HasJudged p self.old bytes
            → HasJudged p self.new (bytes ++ piece.now) }
        ensures fed { result ≡ Ok None → fed self.new ≡ fed self.old + length piece.now }
        ensures rejected { (line : ℕ) → result ≡ Ok (Some line) → (p : ProblemValue) (bytes : List ℕ) → HasJudged p self.old bytes
            → MeetsRejected p (bytes ++ piece.now) line }
    {
        let lines = match self.reader.feed(alloc, piece) {
            Ok(lines) => lines,
            Err(TreeError::BadLine(line)) => return Ok(Some(line)),
            Err(TreeError::Memory) => return Err(AllocError),
        };
        let refused = self.check(alloc, lines.as_slice())?;
        if refused.is_some() {
            return Ok(refused);
        }
        self.bad_line(alloc)
    }

    /// What the bytes are as a whole document. It takes no memory, and is no `AllocError` where each call of `feed` answered
    /// that no rejected line is met.
    pub fn finish(&self) -> Result<TreeVerdict, AllocError>
        ensures { (p : ProblemValue) (bytes : List ℕ) → HasJudged p self.now bytes → IsOkAnd result (IsTreeVerdict p bytes) }
    {
        if let Err(line) = self.reader.finish() {
            return Ok(TreeVerdict::Rejected(line));
        }
        match self.checker.finish()? {
            Checked::Refuted(decisions) => Ok(TreeVerdict::Refuted(decisions)),
            Checked::Unfinished(decisions) => Ok(TreeVerdict::Unfinished(decisions)),
            Checked::Rejected(number) => Ok(TreeVerdict::Rejected(number.saturating_add(2))),
        }
    }
}
