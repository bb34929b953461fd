//! What the problem declares whatever its number: classes, references and the predicate.

ghost use Rattle.std.specs.Prelude.{◌≡◌, None, IfOk};
ghost use Rattle.rf_grow.specs.Grown.{grown_classes, grown_predicates, grown_references, loop_clause, plain_class};

use rf_problem::{Class, Clause, Literal, Predicate, RefKind, Reference, Symbol, Term};
use rf_text::{Items, Text};
use rf_values::Count;
use std::alloc::{AllocError, Global};

fn plain_class(alloc: Global, name: &str) -> Result<Class, AllocError>
    ensures { IfOk result (λ class. class ≡ plain_class name.now) }
{
    Ok(Class {
        name: Text::from_str(alloc, name)?,
        is_abstract: false,
        is_enum: false,
        supers: Items::from_vec(Vec::new(alloc)),
    })
}

/// The classes.
pub fn classes(alloc: Global) -> Result<Vec<Class>, AllocError>
    ensures { IfOk result (λ classes. classes.items ≡ grown_classes) }
{
    let top = plain_class(alloc, "Top")?;
    let part = plain_class(alloc, "Part")?;
    Ok(vec![in alloc; top, part]?)
}

/// The references.
pub fn references(alloc: Global) -> Result<Vec<Reference>, AllocError>
    ensures { IfOk result (λ references. references.items ≡ grown_references) }
{
    let parts = Reference {
        name: Text::from_str(alloc, "parts")?,
        kind: RefKind::Contains,
        source: 0,
        target: 1,
        range: Count { lo: 0, hi: None },
        opposite: None,
    };
    let next = Reference {
        name: Text::from_str(alloc, "next")?,
        kind: RefKind::Plain,
        source: 1,
        target: 1,
        range: Count { lo: 0, hi: Some(1) },
        opposite: None,
    };
    Ok(vec![in alloc; parts, next]?)
}

fn loop_clause(alloc: Global) -> Result<Clause, AllocError>
    ensures { IfOk result (λ clause. clause ≡ loop_clause) }
{
    let args = vec![in alloc; Term::Var(0), Term::Var(0)]?;
    let walk = Literal::Call {
        negated: false,
        closure: true,
        symbol: Symbol::Reference(1),
        args: Items::from_vec(args),
    };
    Ok(Clause {
        variables: Items::from_vec(vec![in alloc; None]?),
        literals: Items::from_vec(vec![in alloc; walk]?),
    })
}

/// The predicates: the one that must hold nowhere.
pub fn predicates(alloc: Global) -> Result<Vec<Predicate>, AllocError>
    ensures { IfOk result (λ predicates. predicates.items ≡ grown_predicates) }
{
    let clause = loop_clause(alloc)?;
    let no_loop = Predicate {
        name: Text::from_str(alloc, "loop")?,
        is_error: true,
        arity: 1,
        clauses: Items::from_vec(vec![in alloc; clause]?),
    };
    Ok(vec![in alloc; no_loop]?)
}
