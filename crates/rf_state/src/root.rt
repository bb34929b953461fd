//! The objects of the root.

ghost use Rattle.std.specs.Prelude.{◌≡◌, ◌<◌, ◌&&◌, ◌==◌, ℕ, length, IfOk};
ghost use Rattle.std.specs.FinSet.{contains};
ghost use Rattle.rf_problem.specs.Classes.{is_concrete, may_have_class};
ghost use Rattle.rf_values.specs.Truth.{keeps};
ghost use Rattle.rf_state.specs.Root.{AreOrdinary, AreRootObjects};
ghost use Rattle.rf_state.specs.State.{is_candidate};

use crate::Object;
use rf_problem::{ObjectDecl, ObjectKind, ObjectName, Problem, Symbol};
use rf_values::{ClassSet, Truth};
use std::alloc::{AllocError, Global};

/// The classes that nodes may have, but for enums.
fn ordinary_classes(problem: &Problem) -> ClassSet
    ensures { AreOrdinary problem.now result }
{
    let mut ordinary = ClassSet::empty();
    for number in 0..problem.classes.as_slice().len() as u32 {
        let class = problem.class(number);
        if !class.is_abstract && !class.is_enum {
            ordinary = ordinary.adding(number);
        }
    }
    ordinary
}

/// This class alone, where nodes may have it.
fn just(problem: &Problem, class: u32) -> ClassSet
    ensures { (c : ℕ) → contains result c ≡ (is_concrete problem.now.classes c && c == class) }
{
    if problem.classes.concrete().has(class) {
        ClassSet::empty().adding(class)
    } else {
        ClassSet::empty()
    }
}

/// The classes that nodes of an object of this name and kind may have.
fn possible(problem: &Problem, ordinary: ClassSet, object: &ObjectDecl) -> ClassSet
    requires { AreOrdinary problem.now ordinary }
    ensures { (c : ℕ) → contains result c
        ≡ (is_concrete problem.now.classes c && may_have_class problem.now.classes object.now.name object.now.kind c) }
{
    match &object.name {
        ObjectName::NewOf(class) => just(problem, *class),
        ObjectName::Named(_) => match object.kind {
            ObjectKind::LiteralOf(class) => just(problem, class),
            ObjectKind::Plain | ObjectKind::Atom => ordinary,
        },
    }
}

/// Those that keep what is known of whether they are among the classes below another.
fn keeping(candidates: ClassSet, below: ClassSet, known: Truth) -> ClassSet
    ensures { (c : ℕ) → contains result c ≡ (contains candidates c && keeps known (contains below c)) }
{
    match known {
        Truth::True => candidates.both(below),
        Truth::False => candidates.without(below),
        Truth::Unknown => candidates,
        Truth::Error => ClassSet::empty(),
    }
}

/// The candidates of an object of the root.
fn candidates(problem: &Problem, ordinary: ClassSet, o: u64) -> ClassSet
    requires ordinary { AreOrdinary problem.now ordinary }
    requires object { o < length problem.now.objects }
    ensures { (c : ℕ) → contains result c ≡ is_candidate problem.now o c }
{
    let mut candidates = possible(problem, ordinary, problem.object(o));
    for class in 0..problem.classes.as_slice().len() as u32 {
        let known = problem.asserted(Symbol::Class(class), &[o]);
        candidates = keeping(candidates, problem.classes.below(class), known);
    }
    candidates
}

/// The objects of the root, one for each object of the problem.
pub fn root_objects(alloc: Global, problem: &Problem) -> Result<Vec<Object>, AllocError>
    ensures { IfOk result (λ objects.
        AreRootObjects problem.now (length problem.now.objects) objects.items) }
{
    let ordinary = ordinary_classes(problem);
    let mut objects = Vec::with_capacity(alloc, problem.objects.len())?;
    for o in 0..problem.objects.len() as u64 {
        objects.push(Object {
            origin: o,
            count: problem.admitted(o),
            candidates: candidates(problem, ordinary, o),
        })?;
    }
    Ok(objects)
}
