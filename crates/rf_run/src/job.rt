ghost use Rattle.std.specs.Prelude.{◌≡◌, IfOk};
ghost use Rattle.rf_failure.specs.Answers.{Answers as Decides};
ghost use Rattle.rf_words.specs.declared.request.Command.{Command};
ghost use Rattle.rf_run.specs.Answers.{Answers, IsRight};
ghost use Rattle.rf_run.specs.Commands.{IsWhole, second_file};
ghost use Rattle.rf_run.specs.Refuses.{RefusesSecond};
ghost use Rattle.rf_run.specs.Stages.{IsWithin, second_of};

use crate::end::Reply;
use crate::{File, Refusal};
use rf_failure::Failure;
use rf_problem::Problem;
use std::alloc::Global;

/// A file that is read after the problem, and the most bytes that it may have.
#[derive(Clone, Copy, Debug)]
pub struct Second<'a> {
    pub name: &'a str,
    pub sort: File,
    pub limit: u64,
}

/// What a command does with its problem and the bytes of its second file, which are read whole.
pub trait Job {
    /// The command, with the names of its files.
    ghost command: { Self → Command };

    fn second_file(&self) -> Option<Second<'_>>
        ensures file { second_file (command self.now) ≡ second_of result }
        ensures whole { IsWhole (command self.now) };

    /// The answer on an accepted problem and the bytes of the second file, none where there is no
    /// such file; or why these are refused.
    fn answer(
        &self,
        alloc: Global,
        problem: &Problem,
        second: &[u8],
    ) -> Result<Reply, Failure<Refusal>>
        requires { IsWithin (second_file (command self.now)) second.now }
        ensures decides { Decides (λ a. a) (Answers (command self.now) problem.now second.now)
            (RefusesSecond (command self.now) problem.now second.now) result }
        ensures right { IfOk result (λ a. IsRight (command self.now) problem.now second.now a) };
}
