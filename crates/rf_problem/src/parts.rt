//! The parts of a problem by their numbers.

ghost use Rattle.std.specs.Prelude.{◌≡◌, ◌<◌, length};
ghost use Rattle.rf_problem.specs.Parts.{is_contains, object_at, predicate_at, reference_at, scope_at};
ghost use Rattle.rf_problem.specs.Classes.{class_at};

use crate::{Class, ObjectDecl, Predicate, Problem, RefKind, Reference, Scope};

impl RefKind {
    /// Whether the source contains the targets.
    pub fn is_contains(self) -> bool
        ensures { result ≡ is_contains self }
    {
        self == RefKind::Contains
    }
}

impl Problem {
    pub fn class(&self, class: u32) -> &Class
        requires { class < length self.now.classes }
        ensures { result.now ≡ class_at self.now.classes class }
    {
        &self.classes[class as usize]
    }

    pub fn reference(&self, reference: u32) -> &Reference
        requires { reference < length self.now.references }
        ensures { result.now ≡ reference_at self.now.references reference }
    {
        &self.references[reference as usize]
    }

    pub fn predicate(&self, predicate: u32) -> &Predicate
        requires { predicate < length self.now.predicates }
        ensures { result.now ≡ predicate_at self.now.predicates predicate }
    {
        &self.predicates[predicate as usize]
    }

    pub fn object(&self, object: u64) -> &ObjectDecl
        requires { object < length self.now.objects }
        ensures { result.now ≡ object_at self.now.objects object }
    {
        &self.objects[object as usize]
    }

    pub fn scope(&self, scope: u32) -> &Scope
        requires { scope < length self.now.scopes }
        ensures { result.now ≡ scope_at self.now.scopes scope }
    {
        &self.scopes[scope as usize]
    }
}
