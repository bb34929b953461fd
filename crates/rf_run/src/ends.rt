//! How a run ends, by its words and its files.

ghost use Rattle.std.specs.Prelude.{◌≡◌, IfOk, IsErr, IsErrOf, MatchResult};
ghost use Rattle.rf_io.specs.Folder.{NoneFell, SameFiles};
ghost use Rattle.rf_problem.specs.declared.problem.Problem.{Problem};
ghost use Rattle.rf_words.specs.Meaning.{IsCommand};
ghost use Rattle.rf_words.specs.declared.request.Command.{Command};
ghost use Rattle.rf_run.specs.Commands.{IsBuilt};
ghost use Rattle.rf_run.specs.Ends.{AFileFailed, CanAnswer, Ends, HasEnd, Input, IsStoredInput, IsSubject, MissesFile, WasRead};
ghost use Rattle.rf_run.specs.Leaves.{IsRightEnd};
ghost use Rattle.rf_run.specs.Stages.{IsAnAnswer};
ghost use Rattle.rf_run.specs.declared.end.End.{End};

use crate::built::{BuiltJob, job_of};
use crate::end::{Cut, End};
use crate::files::over_files;
use crate::grow::over_number;
use rf_io::Folder;
use rf_text::Text;
use rf_words::{WordsError, command};
use std::alloc::Global;

/// How a run with these words ends over the files of a folder; an answer is computed whole.
pub fn end_of<F: Folder>(alloc: Global, words: &[Text], folder: &mut F) -> Result<End, Cut>
    ensures ended { IfOk result (HasEnd words.now (F.state folder.old)) }
    ensures right { (c : Command) (i : Input) (p : Problem) → IsBuilt c → IsCommand words.now c
        → IsStoredInput (F.state folder.old) c i
        → IsSubject c i p → IfOk result (IsRightEnd c p i.second) }
    ensures fault { IsErrOf result Cut.ReadFault
        → AFileFailed words.now (F.state folder.old) (F.state folder.new) }
    ensures missing { (c : Command) → IsBuilt c → IsCommand words.now c
        → MissesFile (F.state folder.old) c → IsErr result }
    ensures complete { (i : Input) (end : End) → Ends words.now i end
        → ((c : Command) → IsBuilt c → IsCommand words.now c
        → WasRead (F.state folder.old) (F.state folder.new) c i end)
        → MatchResult result (λ e. e ≡ end) (λ cut. cut ≡ Cut.Memory) }
    ensures answered { (c : Command) → IsBuilt c → IsCommand words.now c
        → CanAnswer (F.state folder.old) (F.state folder.new) c
        → MatchResult result IsAnAnswer (λ cut. cut ≡ Cut.Memory) }
    ensures same { SameFiles (F.state folder.old) (F.state folder.new) }
    ensures later { NoneFell (F.state folder.old) (F.state folder.new) }
{
    match command(alloc, words) {
        Ok(command) => match job_of(command) {
            Some(BuiltJob::OverFile(job)) => over_files(alloc, folder, &job),
            Some(BuiltJob::Grow(job)) => over_number(alloc, &job),
            None => Ok(End::Usage),
        },
        Err(WordsError::Usage) => Ok(End::Usage),
        Err(WordsError::Memory) => Err(Cut::Memory),
    }
}
