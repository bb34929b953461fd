//! The verdict on a graph, and how it is printed.

ghost use Rattle.std.specs.Prelude.{◌≡◌, ◌++◌, IfOk, OnOk};
ghost use Rattle.rf_graph.specs.Graph.{Fits};
ghost use Rattle.rf_graph.specs.Violations.{IsVerdict};
ghost use Rattle.rf_graph.specs.declared.verdict.Verdict.{Verdict};
ghost use Rattle.rf_tree.specs.Document.{spaced};
ghost use Rattle.rf_run.specs.Answers.{IsRightVerdict};
ghost use Rattle.rf_run.specs.Verdict.{IsNamed, IsPrintable, sign_of, verdict_text, violation_text};

use crate::end::{Reply, Sign};
use rf_graph::{Graph, Verdict, Violation, push_object, push_reference, push_symbol};
use rf_problem::Problem;
use rf_satisfy::judge;
use rf_text::{Text, push_number};
use std::alloc::{AllocError, Global};

/// Appends numbers, each after a space, or, where memory runs out, a part of them.
pub fn push_spaced(alloc: Global, out: &mut Text, numbers: &[u64]) -> Result<(), AllocError>
    ensures { OnOk result (out.new ≡ out.old ++ spaced numbers.now) }
{
    for number in numbers {
        out.push_str(" ")?;
        push_number(alloc, out, *number)?;
    }
    Ok(())
}

// Appends a violation's kind and place, or, where memory runs out, a part of them.
fn push_violation(
    alloc: Global,
    out: &mut Text,
    problem: &Problem,
    violation: Violation,
) -> Result<(), AllocError>
    requires { IsNamed problem.now violation }
    ensures { OnOk result (out.new ≡ out.old ++ violation_text problem.now violation) }
{
    match violation {
        Violation::Class(node) => {
            out.push_str("class")?;
            push_spaced(alloc, out, &[node])
        }
        Violation::Edge(reference, from, to) => {
            out.push_str("edge ")?;
            push_reference(alloc, out, problem, reference)?;
            push_spaced(alloc, out, &[from, to])
        }
        Violation::Opposite(reference, from, to) => {
            out.push_str("opposite ")?;
            push_reference(alloc, out, problem, reference)?;
            push_spaced(alloc, out, &[from, to])
        }
        Violation::Degree(reference, node) => {
            out.push_str("degree ")?;
            push_reference(alloc, out, problem, reference)?;
            push_spaced(alloc, out, &[node])
        }
        Violation::Containers(node) => {
            out.push_str("containers")?;
            push_spaced(alloc, out, &[node])
        }
        Violation::Cycle(node) => {
            out.push_str("cycle")?;
            push_spaced(alloc, out, &[node])
        }
        Violation::Object(object) => {
            out.push_str("object ")?;
            push_object(alloc, out, problem, object)
        }
        Violation::Asserted(symbol, nodes) => {
            out.push_str("asserted ")?;
            push_symbol(alloc, out, problem, symbol)?;
            push_spaced(alloc, out, nodes.as_slice())
        }
        Violation::Scope(scope) => {
            out.push_str("scope")?;
            push_spaced(alloc, out, &[u64::from(scope)])
        }
    }
}

// The reply that a verdict makes.
fn reply_with(alloc: Global, problem: &Problem, verdict: Verdict) -> Result<Reply, AllocError>
    requires { IsPrintable problem.now verdict }
    ensures text { IfOk result (λ reply. reply.text ≡ verdict_text problem.now verdict) }
    ensures sign { IfOk result (λ reply. reply.sign ≡ sign_of verdict) }
{
    match verdict {
        Verdict::Satisfied => Ok(Reply {
            text: Text::from_str(alloc, "satisfied\n")?,
            sign: Sign::Yes,
        }),
        Verdict::Violated(violation) => {
            let mut text = Text::from_str(alloc, "violated ")?;
            push_violation(alloc, &mut text, problem, violation)?;
            text.push_str("\n")?;
            Ok(Reply {
                text,
                sign: Sign::No,
            })
        }
    }
}

/// The verdict on a graph, printed.
pub fn reply_to(alloc: Global, problem: &Problem, graph: &Graph) -> Result<Reply, AllocError>
    requires { Fits problem.now graph.now }
    ensures judged { IfOk result (λ reply. (v : Verdict) × IsVerdict problem.now graph.now v
        × (reply.text ≡ verdict_text problem.now v) × (reply.sign ≡ sign_of v)) }
    ensures right { IfOk result (λ reply. IsRightVerdict problem.now graph.now reply.sign) }
    ensures same { (v : Verdict) → IsVerdict problem.now graph.now v
        → IfOk result (λ reply. (reply.text ≡ verdict_text problem.now v) × (reply.sign
        ≡ sign_of v)) }
{
    match judge(alloc, problem, graph) {
        Ok(verdict) => reply_with(alloc, problem, verdict),
        Err(error) => Err(error),
    }
}
