//! `generate`: a graph of a problem, or a tree that shows that there is none.

ghost use Rattle.std.specs.Prelude.{◌≡◌, ◌≤◌, ◌⊎◌, false, Ok, Err, IfOk, IfErr};
ghost use Rattle.rf_bounds.specs.declared.TheConstants.{MOST_DECISIONS};
ghost use Rattle.rf_run.specs.Outcome.{FitsOutcome, IsDocumentOf, outcome_text, sign_of_outcome};

use crate::Refusal;
use crate::end::{Reply, Sign};
use crate::job::{Job, Second};
use rf_failure::Failure;
use rf_graph::print_graph;
use rf_problem::Problem;
use rf_search::generate;
use rf_text::Text;
use rf_tree::{Outcome, print_tree};
use std::alloc::{AllocError, Global};

/// A graph of the problem in a file, searched for by a seed with at most so many decisions.
#[derive(Debug, Drop)]
pub struct GenerateJob {
    pub file: Text,
    pub seed: u64,
    pub budget: u32,
    ghost some: { 1 ≤ budget },
    ghost most: { budget ≤ MOST_DECISIONS },
}

// The reply that an outcome makes.
fn reply_to(alloc: Global, problem: &Problem, outcome: &Outcome) -> Result<Reply, AllocError>
    requires { FitsOutcome problem.now outcome.now }
    ensures text { IfOk result (λ reply. reply.text ≡ outcome_text problem.now outcome.now) }
    ensures document { IfOk result (λ reply. IsDocumentOf problem.now outcome.now reply.text) }
    ensures sign { IfOk result (λ reply. reply.sign ≡ sign_of_outcome outcome.now) }
{
    let (text, sign) = match outcome {
        Outcome::Found(graph) => (print_graph(alloc, problem, graph)?, Sign::Yes),
        Outcome::Refuted(lines) => (print_tree(alloc, lines.as_slice())?, Sign::No),
        Outcome::Unfinished(lines) => (print_tree(alloc, lines.as_slice())?, Sign::Unfinished),
    };
    Ok(Reply { text, sign })
}

impl Job for GenerateJob {
    ghost use Rattle.rf_words.specs.declared.request.Command.TheVariants.{Generate};

    ghost command = { λ job. Generate job.file job.seed job.budget false };

    fn second_file(&self) -> Option<Second<'_>> {
        None
    }

    fn answer(
        &self,
        alloc: Global,
        problem: &Problem,
        second: &[u8],
    ) -> Result<Reply, Failure<Refusal>> {
        match generate(alloc, problem, self.seed, self.budget) {
            Ok(outcome) => match reply_to(alloc, problem, &outcome) {
                Ok(reply) => Ok(reply),
                Err(_) => Err(Failure::Memory),
            },
            Err(_) => Err(Failure::Memory),
        }
    }
}
