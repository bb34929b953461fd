//! `evaluate`: the values of a problem's predicates.

ghost use Rattle.std.specs.Prelude.{◌≡◌, ◌⊎◌, Ok, Err, IfOk, IfErr};

use crate::Refusal;
use crate::end::{Reply, Sign};
use crate::job::{Job, Second};
use rf_failure::Failure;
use rf_problem::Problem;
use rf_text::Text;
use rf_valuation::valuation_of;
use std::alloc::Global;

/// The values of the predicates of the problem in a file.
#[derive(Debug, Drop)]
pub struct EvaluateJob {
    pub file: Text,
}

impl Job for EvaluateJob {
    ghost use Rattle.rf_words.specs.declared.request.Command.TheVariants.{Evaluate};

    ghost command = { λ job. Evaluate job.file };

    fn second_file(&self) -> Option<Second<'_>> {
        None
    }

    fn answer(
        &self,
        alloc: Global,
        problem: &Problem,
        second: &[u8],
    ) -> Result<Reply, Failure<Refusal>> {
        match valuation_of(alloc, problem) {
            Ok(text) => Ok(Reply {
                text,
                sign: Sign::Yes,
            }),
            Err(_) => Err(Failure::Memory),
        }
    }
}
