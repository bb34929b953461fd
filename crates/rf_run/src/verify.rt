//! `verify`: what a file is as a tree of a problem. It is judged as it is read, a piece at a time.

ghost use Rattle.std.specs.Prelude.{◌≡◌, ◌≤◌, ◌<◌, ◌+◌, ◌++◌, codes, decimal, ℕ, List, Some, IfOk, IfErr, IsErr, IsErrOf, MatchResult};
ghost use Rattle.rf_io.specs.Folder.{IsMissing, NoneFell, ReadFailed, SameFiles, Stores};
ghost use Rattle.rf_check.specs.Documents.{IsTreeVerdict};
ghost use Rattle.rf_words.specs.declared.request.Command.TheVariants.{Verify as VerifyCommand};
ghost use Rattle.rf_run.specs.Ends.{NoReadFailed, second_name};
ghost use Rattle.rf_run.specs.Leaves.{IsRightEnd};
ghost use Rattle.rf_run.specs.declared.end.End.{End};
ghost use Rattle.rf_run.specs.declared.refusal.TheConstants.{TREE_LIMIT};
ghost use Rattle.rf_run.specs.Stages.{EndsAfter, EndsOn, IsJudgedFile, IsLongTree, IsStoredSecond, ReadOfSecondFailed};
ghost use Rattle.rf_run.specs.TreeVerdict.{sign_of_tree, tree_verdict_text};

use crate::end::{Cut, End, Reply, Sign};
use crate::refusal::TREE_LIMIT;
use crate::stop::Stop;
use crate::{File, Refusal};
use rf_check::{TreeVerdict, TreeVerifier};
use rf_io::{Folder, make_piece};
use rf_problem::Problem;
use rf_text::{Text, push_number};
use std::alloc::{AllocError, Global};

/// Whether a file is a refutation of the problem in another.
#[derive(Debug, Drop)]
pub struct VerifyJob {
    pub file: Text,
    pub tree: Text,
}

// How many of the bytes that a read gave from this offset on are within the limit.
fn within_limit(at: u64, count: usize) -> usize
    requires { at ≤ TREE_LIMIT }
    ensures few { result ≤ count }
    ensures within { at + result ≤ TREE_LIMIT }
    ensures all { (result < count) → at + result ≡ TREE_LIMIT }
{
    let room = TREE_LIMIT - at;
    if (count as u64) <= room {
        count
    } else {
        room as usize
    }
}

// The verdict on the tree in a file. Nothing is read after the first rejected line, and nothing after the limit but
// what tells that there is more.
fn judge_file<F: Folder>(
    alloc: Global,
    folder: &mut F,
    name: &str,
    problem: &Problem,
) -> Result<TreeVerdict, Stop>
    ensures judged { IfOk result (IsJudgedFile (F.state folder.old) name.now problem.now) }
    ensures refused { IfErr result (λ stop. (r : _) → stop ≡ Stop.Refused r
        → IsLongTree (F.state folder.old) name.now problem.now r) }
    ensures fault { IsErrOf result (Stop.Cut Cut.ReadFault)
        → ReadFailed (F.state folder.old) (F.state folder.new) name.now }
    ensures same { SameFiles (F.state folder.old) (F.state folder.new) }
    ensures later { NoneFell (F.state folder.old) (F.state folder.new) }
{
    let mut verifier = TreeVerifier::new(alloc, problem)?;
    let mut buffer = make_piece(alloc)?;
    let piece = buffer.as_mut_slice();
    let mut at = 0;
    loop {
        let Ok(count) = folder.read_at(name, at, piece) else {
            return Err(Stop::Cut(Cut::ReadFault));
        };
        if count == 0 {
            let verdict = verifier.finish()?;
            return Ok(verdict);
        }
        let taken = within_limit(at, count);
        if let Some(line) = verifier.feed(alloc, &piece[..taken])? {
            return Ok(TreeVerdict::Rejected(line));
        }
        if taken < count {
            return Err(Stop::Refused(Refusal::TooLong(File::Tree)));
        }
        at += count as u64;
    }
}

// The number and a line feed after a word.
fn counted(alloc: Global, word: &str, number: u64) -> Result<Text, AllocError>
    ensures { IfOk result (λ text. text ≡ word.now ++ (decimal number ++ codes "\n")) }
{
    let mut text = Text::from_str(alloc, word)?;
    push_number(alloc, &mut text, number)?;
    text.push_str("\n")?;
    Ok(text)
}

// The reply that a verdict makes.
fn reply_to(alloc: Global, verdict: TreeVerdict) -> Result<Reply, AllocError>
    ensures text { IfOk result (λ reply. reply.text ≡ tree_verdict_text verdict) }
    ensures sign { IfOk result (λ reply. reply.sign ≡ sign_of_tree verdict) }
{
    let (text, sign) = match verdict {
        TreeVerdict::Refuted(decisions) => (counted(alloc, "refuted ", decisions)?, Sign::Yes),
        TreeVerdict::Unfinished(decisions) => {
            (counted(alloc, "unfinished ", decisions)?, Sign::Unfinished)
        }
        TreeVerdict::Rejected(line) => (counted(alloc, "rejected ", line)?, Sign::No),
    };
    Ok(Reply { text, sign })
}

/// How `verify` ends after its problem.
pub fn over_tree<F: Folder>(
    alloc: Global,
    folder: &mut F,
    job: &VerifyJob,
    problem: &Problem,
) -> Result<End, Cut>
    ensures ended { IfOk result (EndsAfter (F.state folder.old) (VerifyCommand job.now.file job.now.tree) problem.now) }
    ensures right { (second : List ℕ) → IsStoredSecond (F.state folder.old) (VerifyCommand job.now.file job.now.tree) second
        → IfOk result (IsRightEnd (VerifyCommand job.now.file job.now.tree) problem.now second) }
    ensures fault { IsErrOf result Cut.ReadFault
        → ReadOfSecondFailed (F.state folder.old) (F.state folder.new) (VerifyCommand job.now.file job.now.tree) }
    ensures missing { (name : List ℕ) → second_name (VerifyCommand job.now.file job.now.tree) ≡ Some name
        → IsMissing (F.state folder.old) name → IsErr result }
    ensures complete { (second : List ℕ) (end : End)
        → EndsOn (VerifyCommand job.now.file job.now.tree) problem.now second end
        → IsStoredSecond (F.state folder.old) (VerifyCommand job.now.file job.now.tree) second
        → NoReadFailed (F.state folder.old) (F.state folder.new) (second_name (VerifyCommand job.now.file job.now.tree))
        → MatchResult result (λ e. e ≡ end) (λ cut. cut ≡ Cut.Memory) }
    ensures same { SameFiles (F.state folder.old) (F.state folder.new) }
    ensures later { NoneFell (F.state folder.old) (F.state folder.new) }
{
    match judge_file(alloc, folder, job.tree.as_str(), problem) {
        Ok(verdict) => match reply_to(alloc, verdict) {
            Ok(reply) => Ok(End::Answered(reply)),
            Err(_) => Err(Cut::Memory),
        },
        Err(stop) => stop.end(),
    }
}
