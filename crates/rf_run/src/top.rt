ghost use Rattle.std.specs.Prelude.{◌≡◌, ◌≤◌, ◌⊎◌};
ghost use Rattle.rf_io.specs.Causes.{Rose};
ghost use Rattle.rf_io.specs.Folder.{NoneFell, SameFiles};
ghost use Rattle.rf_problem.specs.declared.problem.Problem.{Problem};
ghost use Rattle.rf_words.specs.Meaning.{IsCommand};
ghost use Rattle.rf_words.specs.declared.request.Command.{Command};
ghost use Rattle.rf_run.specs.Commands.{IsBuilt};
ghost use Rattle.rf_run.specs.Answers.{HasEnough};
ghost use Rattle.rf_run.specs.Ends.{AFileFailed, CanAnswer, Ends, HasEnd, Input, IsStoredInput, IsSubject, MissesFile, WasRead};
ghost use Rattle.rf_run.specs.Leaves.{CameTo, Complained, HasAnswered, IsRightEnd, NoWriteFailed, Wrote};
ghost use Rattle.rf_run.specs.declared.end.End.{End};

use crate::Status;
use crate::ends::end_of;
use crate::leave::{leave, leave_cut};
use rf_io::{Folder, Sink};
use rf_text::Text;
use std::alloc::Global;

/// Runs the program on the words after its name: what it answers goes to `out`, why it has no answer
/// to `err`, and the status says how it ended.
///
/// The clauses speak of how a run ends by its words and its input, the bytes of the files that the
/// words name (`specs/Ends`), and of what each end leaves (`specs/Leaves`). They hold for every folder
/// and every sink; where a folder doesn't tell what it stores, an input is one that its reads may have
/// given. A read that failed shows in the count of faults of its name, a write that failed in that of
/// its sink. Running out of memory may end any run; the contract says what it leaves.
pub fn run<F: Folder, O: Sink, E: Sink>(
    alloc: Global,
    words: &[Text],
    folder: &mut F,
    out: &mut O,
    err: &mut E,
) -> Status
    // What stands on the output and on the error output, by the status: each status has an end that
    // the words have on what is told.
    ensures wrote { Wrote (HasEnd words.now (F.state folder.old))
        (O.state out.old) (O.state out.new) result }
    ensures complained { Complained (HasEnd words.now (F.state folder.old))
        (E.state err.old) (E.state err.new) result }

    // What is answered is right in the user's words, even where a call failed earlier in the run.
    ensures right { (c : Command) (i : Input) (p : Problem) → IsBuilt c → IsCommand words.now c
        → IsStoredInput (F.state folder.old) c i
        → IsSubject c i p
        → Wrote (IsRightEnd c p i.second) (O.state out.old) (O.state out.new) result }

    // Where a scope bounds all nodes, a search with enough of a budget ends with a graph or a refutation.
    ensures enough { (c : Command) (i : Input) (p : Problem) → IsBuilt c → IsCommand words.now c
        → IsStoredInput (F.state folder.old) c i
        → IsSubject c i p
        → HasEnough c p → result ≡ Status.Unfinished → ⊥ }

    // The causes of faults, and what a missing file gets.
    ensures read { result ≡ Status.ReadFault
        → AFileFailed words.now (F.state folder.old) (F.state folder.new) }
    ensures write { result ≡ Status.WriteFault
        → Rose (O.state out.old).faults (O.state out.new).faults }
    ensures missing { (c : Command) → IsBuilt c → IsCommand words.now c
        → MissesFile (F.state folder.old) c
        → (result ≡ Status.ReadFault) ⊎ (result ≡ Status.NoMemory) }

    // An end that the words have on the told bytes is reached, or memory ran out, where no read
    // failed of a file that is read before that end, and, for an answer, no write of it.
    ensures complete { (i : Input) (end : End) → Ends words.now i end
        → ((c : Command) → IsBuilt c → IsCommand words.now c
        → WasRead (F.state folder.old) (F.state folder.new) c i end)
        → NoWriteFailed end (O.state out.old) (O.state out.new)
        → CameTo end result (O.state out.old) (O.state out.new)
        (E.state err.old) (E.state err.new) }

    // There is such an end for every problem that is accepted, with a second file of its form: a command is
    // answered, unless a read of its files failed, or a write of the answer, or memory ran out.
    ensures answered { (c : Command) → IsBuilt c → IsCommand words.now c
        → CanAnswer (F.state folder.old) (F.state folder.new) c
        → HasAnswered result }

    // The folder tells the same as before, and no count of faults fell.
    ensures same { SameFiles (F.state folder.old) (F.state folder.new) }
    ensures folder_later { NoneFell (F.state folder.old) (F.state folder.new) }
    ensures out_later { (O.state out.old).faults ≤ (O.state out.new).faults }
    ensures err_later { (E.state err.old).faults ≤ (E.state err.new).faults }
{
    match end_of(alloc, words, folder) {
        Ok(end) => leave(alloc, end, out, err),
        Err(cut) => leave_cut(cut, err),
    }
}
