//! `grow`: what a search ends with on the problem of a number, in one line.

ghost use Rattle.std.specs.Prelude.{◌≡◌, ◌≤◌, ◌∷◌, [], ℕ, List, length, IfOk, IfErr, MatchResult};
ghost use Rattle.rf_grow.specs.Grown.{IsGrown};
ghost use Rattle.rf_problem.specs.declared.problem.Problem.{Problem as TheProblem};
ghost use Rattle.rf_tree.specs.Pending.{decisions_in};
ghost use Rattle.rf_words.specs.declared.request.Command.TheVariants.{Grow};
ghost use Rattle.rf_words.specs.declared.request.TheConstants.{MOST_GROWTH};
ghost use Rattle.rf_run.specs.Answers.{AnswersGrow, IsRightGrowth};
ghost use Rattle.rf_run.specs.Ends.{EndsAs, Input};
ghost use Rattle.rf_run.specs.Leaves.{IsRightEnd};
ghost use Rattle.rf_run.specs.Outcome.{counts_line, outcome_line, sign_of_outcome};
ghost use Rattle.rf_run.specs.Stages.{IsAnAnswer, no_input};
ghost use Rattle.rf_run.specs.declared.end.End.{End as TheEnd};
ghost use Rattle.rf_run.specs.declared.end.Reply.{Reply as TheReply};

use crate::end::{Cut, End, Reply, Sign};
use crate::reply::push_spaced;
use rf_grow::grown;
use rf_search::generate;
use rf_text::Text;
use rf_tree::{Line, Outcome};
use std::alloc::{AllocError, Global};

/// How many decisions a search on the problem of a number may make.
pub const GROWTH_BUDGET: u32 = 10_000;

/// A graph of the problem of a number, searched for by this number as the seed.
#[derive(Debug, Drop)]
pub struct GrowJob {
    pub n: u32,
    ghost some: { 1 ≤ n },
    ghost most: { n ≤ MOST_GROWTH },
}

// How many decisions a line is.
fn decisions_of(line: &Line) -> u64
    ensures counted { result ≡ decisions_in (line.now ∷ []) }
    ensures few { result ≤ 1 }
{
    match line {
        Line::Step(_) | Line::Close(_) => 0,
        Line::Decide(_, _) => 1,
    }
}

// How many of the lines are decisions.
#[tactic(auto, using(crate::proofs::Grown::decisions_more))]
fn count_decisions(lines: &[Line]) -> u64
    ensures { result ≡ decisions_in lines.now }
{
    let mut count = 0;
    for line in lines {
        count += decisions_of(line);
    }
    count
}

// Two numbers after a word.
fn counts_line(alloc: Global, word: &str, first: u64, second: u64) -> Result<Text, AllocError>
    ensures { IfOk result (λ text. text ≡ counts_line word.now first second) }
{
    let mut text = Text::from_str(alloc, word)?;
    push_spaced(alloc, &mut text, &[first, second])?;
    text.push_str("\n")?;
    Ok(text)
}

// The counts of a tree after a word.
fn tree_line(alloc: Global, word: &str, lines: &[Line]) -> Result<Text, AllocError>
    ensures { IfOk result (λ text. text ≡ counts_line word.now (decisions_in lines.now) (length lines.now)) }
{
    counts_line(alloc, word, count_decisions(lines), lines.len() as u64)
}

// The reply that an outcome makes.
fn reply_to(alloc: Global, outcome: &Outcome) -> Result<Reply, AllocError>
    ensures text { IfOk result (λ reply. reply.text ≡ outcome_line outcome.now) }
    ensures sign { IfOk result (λ reply. reply.sign ≡ sign_of_outcome outcome.now) }
{
    let (text, sign) = match outcome {
        Outcome::Found(graph) => {
            let (nodes, edges) = (graph.nodes.len() as u64, graph.edges.len() as u64);
            (counts_line(alloc, "graph", nodes, edges)?, Sign::Yes)
        }
        Outcome::Refuted(lines) => (tree_line(alloc, "refuted", lines.as_slice())?, Sign::No),
        Outcome::Unfinished(lines) => {
            (
                tree_line(alloc, "unfinished", lines.as_slice())?,
                Sign::Unfinished,
            )
        }
    };
    Ok(Reply { text, sign })
}

// The answer, about the one problem of the number.
fn answer(alloc: Global, job: &GrowJob) -> Result<Reply, AllocError>
    ensures answers { IfOk result (λ reply. (p : TheProblem) × IsGrown job.now.n p × AnswersGrow p job.now.n reply) }
    ensures same { (p : TheProblem) (a : TheReply) → IsGrown job.now.n p → AnswersGrow p job.now.n a
        → IfOk result (λ reply. reply ≡ a) }
    ensures right { (p : TheProblem) → IsGrown job.now.n p
        → IfOk result (λ reply. IsRightGrowth p reply.text reply.sign) }
{
    let problem = grown(alloc, job.n)?;
    let outcome = generate(alloc, &problem, u64::from(job.n), GROWTH_BUDGET)?;
    reply_to(alloc, &outcome)
}

/// How `grow` ends. It reads no file.
pub fn over_number(alloc: Global, job: &GrowJob) -> Result<End, Cut>
    ensures ended { IfOk result (EndsAs (Grow job.now.n) no_input) }
    ensures right { (p : TheProblem) (second : List ℕ) → IsGrown job.now.n p
        → IfOk result (IsRightEnd (Grow job.now.n) p second) }
    ensures complete { (i : Input) (end : TheEnd) → EndsAs (Grow job.now.n) i end
        → MatchResult result (λ e. e ≡ end) (λ cut. cut ≡ Cut.Memory) }
    ensures answered { MatchResult result IsAnAnswer (λ cut. cut ≡ Cut.Memory) }
    ensures memory { IfErr result (λ cut. cut ≡ Cut.Memory) }
{
    match answer(alloc, job) {
        Ok(reply) => Ok(End::Answered(reply)),
        Err(_) => Err(Cut::Memory),
    }
}
