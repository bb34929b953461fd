//! Literals that ask for an edge from one variable's object to another's.

ghost use Rattle.std.specs.Prelude.{◌≡◌, ◌<◌, ◌≢◌, ◌∷◌, ℕ, List, Option, IfSome, [], false, true, length, max, slice_index};
ghost use Rattle.rf_problem.specs.Reading.{Assignment};
ghost use Rattle.rf_problem.specs.declared.predicate.Literal.TheVariants.{Call};
ghost use Rattle.rf_problem.specs.declared.predicate.Term.TheVariants.{Var};
ghost use Rattle.rf_problem.specs.declared.symbol.Symbol.TheVariants.{Reference};
ghost use Rattle.rf_problem.specs.declared.problem.Problem.{Problem};
ghost use Rattle.rf_rules.specs.Predicates.{is_open};
ghost use Rattle.rf_rules.specs.Words.{is_unknown};
ghost use Rattle.rf_state.specs.State.{State, fact};
ghost use Rattle.rf_prop_broken.specs.Looking.{Leads};

use crate::choice::Choice;
use rf_evaluate::Elements;
use rf_problem::{Literal, Symbol, Term};
use rf_state::Facts;
use rf_values::Truth;

/// A call of a reference without closure, at two variables.
#[derive(Clone, Copy)]
pub struct Edge {
    pub negated: bool,
    pub reference: u32,
    pub from: u8,
    pub to: u8,
}

/// A variable, and the objects that it may stand for, perhaps among others.
#[derive(Clone, Copy)]
pub struct Next<'v> {
    pub variable: usize,
    pub elements: Elements<'v>,
}

/// The call that a literal is, if it is such a call.
pub fn edge_of(literal: &Literal) -> Option<Edge>
    ensures { IfSome result (λ edge. literal.now ≡ Call edge.negated false (Reference edge.reference) (Var edge.from ∷ Var edge.to ∷ [])) }
{
    let Literal::Call {
        negated,
        closure: false,
        symbol: Symbol::Reference(reference),
        args,
    } = literal
    else {
        return None;
    };
    let &[Term::Var(from), Term::Var(to)] = args.as_slice() else {
        return None;
    };
    Some(Edge {
        negated: *negated,
        reference: *reference,
        from,
        to,
    })
}

/// Whether a literal can be forced at all: it calls a reference without closure.
pub fn can_be_forced(literal: &Literal) -> bool
    ensures { result ≡ false → (p : Problem) (s : State) (variables : List (Option ℕ)) (places : Assignment) → is_open p s variables places literal.now ≡ false }
{
    matches!(
        literal,
        Literal::Call {
            closure: false,
            symbol: Symbol::Reference(_),
            ..
        }
    )
}

impl Edge {
    /// Whether something is known of the edge between the objects of its variables.
    pub fn is_known<F: Facts>(&self, view: &F, choice: &Choice) -> bool
        requires { self.now.reference < length (F.problem view.now).references }
        ensures { result ≡ true → is_unknown (fact (F.problem view.now) (F.state view.now) self.now.reference
            (slice_index choice.now.places self.now.from) (slice_index choice.now.places self.now.to)) ≡ false }
    {
        let Some(from) = choice.place(self.from) else {
            return false;
        };
        let Some(to) = choice.place(self.to) else {
            return false;
        };
        let objects = view.objects();
        from < objects && to < objects && view.fact(self.reference, from, to) != Truth::Unknown
    }

    // The variable at its end, where that at its beginning has its object.
    fn onward<'v, F: Facts>(&self, view: &'v F, choice: &Choice) -> Option<Next<'v>>
        requires { self.now.reference < length (F.problem view.now).references }
        ensures { IfSome result (λ next. Leads (F.problem view.now) (F.state view.now) self.now choice.now next.variable next.elements) }
    {
        let from = choice.place(self.from)?;
        let variable = choice.waiting(self.to)?;
        if from >= view.objects() {
            return None;
        }
        let elements = view.ends_from(self.reference, from);
        Some(Next { variable, elements })
    }

    // The variable at its beginning, where that at its end has its object.
    fn back<'v, F: Facts>(&self, view: &'v F, choice: &Choice) -> Option<Next<'v>>
        requires { self.now.reference < length (F.problem view.now).references }
        ensures { IfSome result (λ next. Leads (F.problem view.now) (F.state view.now) self.now choice.now next.variable next.elements) }
    {
        let to = choice.place(self.to)?;
        let variable = choice.waiting(self.from)?;
        if to >= view.objects() {
            return None;
        }
        let elements = view.ends_into(self.reference, to);
        Some(Next { variable, elements })
    }

    /// A variable at one of its ends, where that at the other has its object, and the objects to which the edge can
    /// lead.
    pub fn next<'v, F: Facts>(&self, view: &'v F, choice: &Choice) -> Option<Next<'v>>
        requires { self.now.reference < length (F.problem view.now).references }
        ensures { IfSome result (λ next. Leads (F.problem view.now) (F.state view.now) self.now choice.now next.variable next.elements) }
    {
        match self.onward(view, choice) {
            Some(next) => Some(next),
            None => self.back(view, choice),
        }
    }
}
