//! The commands that are built.

ghost use Rattle.std.specs.Prelude.{◌≡◌, None, Some, IfSome};
ghost use Rattle.rf_run.specs.Commands.{FitsLimits, IsBuilt, problem_file};
ghost use Rattle.rf_run.specs.Jobs.{command_of, file_command};

use crate::check::CheckJob;
use crate::evaluate::EvaluateJob;
use crate::generate::GenerateJob;
use crate::grow::GrowJob;
use crate::verify::VerifyJob;
use rf_words::Command;

/// A command that is built and has a problem in a file.
#[derive(Drop)]
pub enum FileJob {
    Check(CheckJob),
    Evaluate(EvaluateJob),
    Generate(GenerateJob),
    Verify(VerifyJob),
}

/// A command that is built.
#[derive(Drop)]
pub enum BuiltJob {
    OverFile(FileJob),
    Grow(GrowJob),
}

impl FileJob {
    /// The file of the problem.
    pub fn problem_file(&self) -> &str
        ensures { problem_file (file_command self.now) ≡ Some result.now }
    {
        match self {
            FileJob::Check(job) => job.file.as_str(),
            FileJob::Evaluate(job) => job.file.as_str(),
            FileJob::Generate(job) => job.file.as_str(),
            FileJob::Verify(job) => job.file.as_str(),
        }
    }
}

/// The job of a command, where it is built.
pub fn job_of(command: Command) -> Option<BuiltJob>
    requires { FitsLimits command }
    ensures some { IfSome result (λ job. command ≡ command_of job) }
    ensures built { IfSome result (λ job. IsBuilt (command_of job)) }
    ensures none { result ≡ None → IsBuilt command → ⊥ }
{
    match command {
        Command::Check { file, graph } => {
            Some(BuiltJob::OverFile(FileJob::Check(CheckJob { file, graph })))
        }
        Command::Evaluate { file } => {
            Some(BuiltJob::OverFile(FileJob::Evaluate(EvaluateJob { file })))
        }
        Command::Generate {
            file,
            seed,
            budget,
            json: false,
        } => {
            let job = GenerateJob { file, seed, budget };
            Some(BuiltJob::OverFile(FileJob::Generate(job)))
        }
        Command::Verify { file, tree } => {
            Some(BuiltJob::OverFile(FileJob::Verify(VerifyJob { file, tree })))
        }
        Command::Grow(n) => Some(BuiltJob::Grow(GrowJob { n })),
        _ => None,
    }
}
