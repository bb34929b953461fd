//! A job over the files of a folder.

ghost use Rattle.std.specs.Prelude.{◌≡◌, ◌⊎◌, ℕ, List, Some, Contains, IfOk, IfErr, IsErr, IsErrOf, IsErrAnd, MatchResult};
ghost use Rattle.rf_io.specs.Folder.{IsMissing, IsTold, NoneFell, ReadFailed, SameFiles, Stores};
ghost use Rattle.rf_problem.specs.declared.problem.Problem.{Problem};
ghost use Rattle.rf_run.specs.Accepted.{IsAccepted};
ghost use Rattle.rf_run.specs.Commands.{files_of};
ghost use Rattle.rf_run.specs.Ends.{CanAnswer, EndsAs, Input, IsStoredInput, IsSubject, MissesFile, NoReadFailed, WasRead, second_name};
ghost use Rattle.rf_run.specs.Leaves.{IsRightEnd};
ghost use Rattle.rf_run.specs.Refuses.{RefusesProblem};
ghost use Rattle.rf_run.specs.Jobs.{file_command};
ghost use Rattle.rf_run.specs.Stages.{EndsAfter, EndsOn, EndsOver, IsAnAnswer, IsCut, IsLongSecond, IsSecond, IsStoredSecond, ReadOfSecondFailed, SecondFailed, second_of, stop_of_read};
ghost use Rattle.rf_run.specs.declared.end.End.{End};

use crate::built::FileJob;
use crate::end::{Cut, End};
use crate::job::{Job, Second};
use crate::refusal::PROBLEM_LIMIT;
use crate::stop::Stop;
use crate::verify::over_tree;
use crate::{File, Refusal};
use rf_failure::Failure;
use rf_io::{Folder, ReadError, read_file};
use rf_problem::Problem;
use rf_source::read_source;
use std::alloc::Global;

fn stop_of(error: ReadError, sort: File) -> Stop
    ensures { result ≡ stop_of_read error sort }
{
    match error {
        ReadError::TooLong => Stop::Refused(Refusal::TooLong(sort)),
        ReadError::Fault => Stop::Cut(Cut::ReadFault),
        ReadError::Memory => Stop::Cut(Cut::Memory),
    }
}

// The problem in a file.
fn open_problem<F: Folder>(alloc: Global, folder: &mut F, name: &str) -> Result<Problem, Stop>
    ensures ok { IfOk result (λ p. (bytes : List ℕ) × IsTold (F.state folder.old) name.now bytes
        × IsAccepted bytes p) }
    ensures refused { IfErr result (λ stop. (r : _) → stop ≡ Stop.Refused r
        → (bytes : List ℕ) × IsTold (F.state folder.old) name.now bytes × RefusesProblem bytes r) }
    ensures fault { IsErrOf result (Stop.Cut Cut.ReadFault)
        → ReadFailed (F.state folder.old) (F.state folder.new) name.now }

    // What is told decides, but for a run that is cut short.
    ensures accepted { (bytes : _) (p : _) → Stores (F.state folder.old) name.now bytes
        → IsAccepted bytes p → MatchResult result (λ q. q ≡ p) IsCut }
    ensures refuses { (bytes : _) (r : _) → Stores (F.state folder.old) name.now bytes
        → RefusesProblem bytes r
        → IsErrAnd result (λ stop. (stop ≡ Stop.Refused r) ⊎ IsCut stop) }

    ensures same { SameFiles (F.state folder.old) (F.state folder.new) }
    ensures later { NoneFell (F.state folder.old) (F.state folder.new) }
{
    match read_file(alloc, folder, name, PROBLEM_LIMIT as usize) {
        Ok(bytes) => match read_source(alloc, bytes.as_slice()) {
            Ok(problem) => Ok(problem),
            Err(Failure::Fault(fault)) => Err(Stop::Refused(Refusal::Problem(fault))),
            Err(Failure::Memory) => Err(Stop::Cut(Cut::Memory)),
        },
        Err(error) => Err(stop_of(error, File::Problem)),
    }
}

// The bytes of the second file, none where there is no such file.
fn read_second<F: Folder>(
    alloc: Global,
    folder: &mut F,
    second: Option<Second<'_>>,
) -> Result<Vec<u8>, Stop>
    ensures ok { IfOk result (λ bytes. IsSecond (F.state folder.old) (second_of second.entry) bytes.items) }
    ensures refused { IfErr result (λ stop. (r : _) → stop ≡ Stop.Refused r
        → IsLongSecond (F.state folder.old) (second_of second.entry) r) }
    ensures fault { IsErrOf result (Stop.Cut Cut.ReadFault)
        → SecondFailed (F.state folder.old) (F.state folder.new) (second_of second.entry) }
    ensures same { SameFiles (F.state folder.old) (F.state folder.new) }
    ensures later { NoneFell (F.state folder.old) (F.state folder.new) }
{
    let Some(file) = second else {
        return Ok(Vec::new(alloc));
    };
    match read_file(alloc, folder, file.name, file.limit as usize) {
        Ok(bytes) => Ok(bytes),
        Err(error) => Err(stop_of(error, file.sort)),
    }
}

// How a command ends after its problem that reads its second file whole.
fn over_second<F: Folder, J: Job>(
    alloc: Global,
    folder: &mut F,
    job: &J,
    problem: &Problem,
) -> Result<End, Cut>
    ensures ended { IfOk result (EndsAfter (F.state folder.old) (J.command job.now) problem.now) }
    ensures right { (second : List ℕ) → IsStoredSecond (F.state folder.old) (J.command job.now) second
        → IfOk result (IsRightEnd (J.command job.now) problem.now second) }
    ensures fault { IsErrOf result Cut.ReadFault
        → ReadOfSecondFailed (F.state folder.old) (F.state folder.new) (J.command job.now) }
    ensures missing { (name : List ℕ) → second_name (J.command job.now) ≡ Some name
        → IsMissing (F.state folder.old) name → IsErr result }
    ensures complete { (second : List ℕ) (end : End) → EndsOn (J.command job.now) problem.now second end
        → IsStoredSecond (F.state folder.old) (J.command job.now) second
        → NoReadFailed (F.state folder.old) (F.state folder.new) (second_name (J.command job.now))
        → MatchResult result (λ e. e ≡ end) (λ cut. cut ≡ Cut.Memory) }
    ensures same { SameFiles (F.state folder.old) (F.state folder.new) }
    ensures later { NoneFell (F.state folder.old) (F.state folder.new) }
{
    let second = match read_second(alloc, folder, job.second_file()) {
        Ok(second) => second,
        Err(stop) => return stop.end(),
    };
    match job.answer(alloc, problem, second.as_slice()) {
        Ok(reply) => Ok(End::Answered(reply)),
        Err(Failure::Fault(refusal)) => Ok(End::Refused(refusal)),
        Err(Failure::Memory) => Err(Cut::Memory),
    }
}

// How a command ends after its problem.
fn after_problem<F: Folder>(
    alloc: Global,
    folder: &mut F,
    job: &FileJob,
    problem: &Problem,
) -> Result<End, Cut>
    ensures ended { IfOk result (EndsAfter (F.state folder.old) (file_command job.now) problem.now) }
    ensures right { (second : List ℕ) → IsStoredSecond (F.state folder.old) (file_command job.now) second
        → IfOk result (IsRightEnd (file_command job.now) problem.now second) }
    ensures fault { IsErrOf result Cut.ReadFault
        → ReadOfSecondFailed (F.state folder.old) (F.state folder.new) (file_command job.now) }
    ensures missing { (name : List ℕ) → second_name (file_command job.now) ≡ Some name
        → IsMissing (F.state folder.old) name → IsErr result }
    ensures complete { (second : List ℕ) (end : End) → EndsOn (file_command job.now) problem.now second end
        → IsStoredSecond (F.state folder.old) (file_command job.now) second
        → NoReadFailed (F.state folder.old) (F.state folder.new) (second_name (file_command job.now))
        → MatchResult result (λ e. e ≡ end) (λ cut. cut ≡ Cut.Memory) }
    ensures same { SameFiles (F.state folder.old) (F.state folder.new) }
    ensures later { NoneFell (F.state folder.old) (F.state folder.new) }
{
    match job {
        FileJob::Check(job) => over_second(alloc, folder, job, problem),
        FileJob::Evaluate(job) => over_second(alloc, folder, job, problem),
        FileJob::Generate(job) => over_second(alloc, folder, job, problem),
        FileJob::Verify(job) => over_tree(alloc, folder, job, problem),
    }
}

/// How a job ends over its files.
pub fn over_files<F: Folder>(alloc: Global, folder: &mut F, job: &FileJob) -> Result<End, Cut>
    ensures ended { IfOk result (EndsOver (F.state folder.old) (file_command job.now)) }
    ensures right { (i : Input) (p : Problem) → IsStoredInput (F.state folder.old) (file_command job.now) i
        → IsSubject (file_command job.now) i p
        → IfOk result (IsRightEnd (file_command job.now) p i.second) }
    ensures fault { IsErrOf result Cut.ReadFault → (name : List ℕ)
        × Contains (files_of (file_command job.now)) name
        × ReadFailed (F.state folder.old) (F.state folder.new) name }
    ensures missing { MissesFile (F.state folder.old) (file_command job.now) → IsErr result }

    // What is told decides, unless a read failed or memory ran out.
    ensures complete { (i : Input) (end : End) → EndsAs (file_command job.now) i end
        → WasRead (F.state folder.old) (F.state folder.new) (file_command job.now) i end
        → MatchResult result (λ e. e ≡ end) (λ cut. cut ≡ Cut.Memory) }

    // Where nothing keeps the command from its answer, it is answered, or memory ran out.
    ensures answered { CanAnswer (F.state folder.old) (F.state folder.new) (file_command job.now)
        → MatchResult result IsAnAnswer (λ cut. cut ≡ Cut.Memory) }

    ensures same { SameFiles (F.state folder.old) (F.state folder.new) }
    ensures later { NoneFell (F.state folder.old) (F.state folder.new) }
{
    match open_problem(alloc, folder, job.problem_file()) {
        Ok(problem) => after_problem(alloc, folder, job, &problem),
        Err(stop) => stop.end(),
    }
}
