//! `check`: whether a graph satisfies a problem.

ghost use Rattle.std.specs.Prelude.{◌≡◌, ◌⊎◌, Ok, Err, IfOk, IfErr};

use crate::end::Reply;
use crate::job::{Job, Second};
use crate::refusal::GRAPH_LIMIT;
use crate::reply::reply_to;
use crate::{File, Refusal};
use rf_failure::Failure;
use rf_graph::{GraphError, read_graph};
use rf_problem::Problem;
use rf_text::Text;
use std::alloc::Global;

/// Whether the graph in a file satisfies the problem in another.
#[derive(Debug, Drop)]
pub struct CheckJob {
    pub file: Text,
    pub graph: Text,
}

impl Job for CheckJob {
    ghost use Rattle.rf_words.specs.declared.request.Command.TheVariants.{Check};

    ghost command = { λ job. Check job.file job.graph };

    fn second_file(&self) -> Option<Second<'_>> {
        Some(Second {
            name: self.graph.as_str(),
            sort: File::Graph,
            limit: GRAPH_LIMIT,
        })
    }

    fn answer(
        &self,
        alloc: Global,
        problem: &Problem,
        second: &[u8],
    ) -> Result<Reply, Failure<Refusal>> {
        match read_graph(alloc, problem, second) {
            Ok(graph) => match reply_to(alloc, problem, &graph) {
                Ok(reply) => Ok(reply),
                Err(_) => Err(Failure::Memory),
            },
            Err(GraphError::BadLine(line)) => {
                Err(Failure::Fault(Refusal::BadLine(File::Graph, line)))
            }
            Err(GraphError::Memory) => Err(Failure::Memory),
        }
    }
}
