ghost use Rattle.std.specs.Prelude.{◌≡◌, ◌<◌, ◌^◌, IfOk, IfErr, None, Some, length};
ghost use Rattle.rf_failure.specs.Answers.{Answers, IfFault};
ghost use Rattle.rf_resolve.specs.Fault.{NameFault, Resolves, fault_of};
ghost use Rattle.rf_resolve.specs.Readable.{IsReadableTree};
ghost use Rattle.rf_build.specs.Resolved.{IsResolved};
ghost use Rattle.rf_resolve.specs.Texts.{IsOfText};
ghost use Rattle.rf_names.specs.Declarations.{AreFew};
ghost use Rattle.rf_syntax.specs.Statement.{spelling_of};

use crate::NameError;
use crate::faults::first_fault;
use rf_build::build;
use rf_failure::Failure;
use rf_names::{Declarations, Names};
use rf_problem::Problem;
use rf_syntax::Ast;
use std::alloc::{AllocError, Global};

// The problem of these names, where no rule is broken.
fn problem_of(alloc: Global, names: &Names) -> Result<Problem, AllocError>
    requires read { IsOfText names.now.declared.now }
    requires sound { fault_of names.now.declared.now ≡ None }
    ensures { IfOk result (λ p. IsResolved names.now.declared.now p) }
{
    let made = build(alloc, names)?;
    match made {
        Some(problem) => Ok(problem),
        None => unreachable!(),
    }
}

// The problem of these names, or the first rule that is broken.
fn resolve_names(alloc: Global, names: &Names) -> Result<Problem, Failure<NameError>>
    requires { IsOfText names.now.declared.now }
    ensures sound { IfOk result (λ p. fault_of names.now.declared.now ≡ None) }
    ensures ok { IfOk result (λ p. IsResolved names.now.declared.now p) }
    ensures fault { IfErr result (λ e. IfFault e (λ f. fault_of names.now.declared.now ≡ Some f)) }
{
    if let Some(fault) = first_fault(alloc, names)? {
        return Err(Failure::Fault(fault));
    }
    let problem = problem_of(alloc, names)?;
    Ok(problem)
}

// The problem of these declarations, or the first rule that is broken.
fn resolve_declared(alloc: Global, declared: &Declarations) -> Result<Problem, Failure<NameError>>
    requires read { IsOfText declared.now }
    requires few { AreFew declared.now }
    ensures sound { IfOk result (λ p. fault_of declared.now ≡ None) }
    ensures ok { IfOk result (λ p. IsResolved declared.now p) }
    ensures fault { IfErr result (λ e. IfFault e (λ f. fault_of declared.now ≡ Some f)) }
{
    let names = Names::of(alloc, declared)?;
    resolve_names(alloc, &names)
}

/// The problem that a tree stands for: each list is that of its declarations in order, each number
/// that of what a name stands for. A tree has exactly one problem, or one fault.
pub fn resolve(alloc: Global, ast: &Ast) -> Result<Problem, Failure<NameError>>
    requires read { IsReadableTree ast.now }
    requires short { length (spelling_of ast.now) < 2 ^ 32 }
    ensures answers { Answers (λ p. p) (Resolves ast.now) (NameFault ast.now) result }
{
    let declared = Declarations::of(alloc, ast)?;
    resolve_declared(alloc, &declared)
}
