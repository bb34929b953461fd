//! What is known of elements, as a trait of what is read.

ghost use Rattle.std.specs.Prelude.{◌≡◌};

use crate::elements::Elements;
use rf_problem::{Problem, Symbol};
use rf_values::Truth;

/// Elements of a problem's graphs, and what is known of each fact about them. A graph is one, with its
/// nodes as elements, where each fact holds or doesn't.
///
/// Each call takes constant time or a look-up, so that an evaluation may ask often. No number of an
/// element is refused: of one that isn't there is known what the definition says.
pub trait Knowledge {
    ghost use Rattle.std.specs.Prelude.{ℕ, ◌<◌, ◌≡◌, IfSome, List, length, false, true};
    ghost use Rattle.rf_values.specs.declared.truth.Truth.TheVariants.{False};
    ghost use Rattle.rf_problem.specs.declared.symbol.Symbol.TheVariants.{Predicate as Defined};
    ghost use Rattle.rf_evaluate.specs.Elements.{AreBelow, includes};
    ghost use Rattle.rf_evaluate.specs.Known.{Known, value_of, walk_of};

    ghost known: { Self → Known };

    /// The problem.
    fn problem(&self) -> &Problem
        ensures { result.now ≡ (known self.now).problem };

    /// How many elements there are.
    fn size(&self) -> u64
        ensures { result ≡ (known self.now).size };

    /// Whether an element is present.
    fn is_present(&self, x: u64) -> Truth
        ensures { result ≡ (known self.now).presence x };

    /// Whether an element has a class.
    fn has_class(&self, class: u32, x: u64) -> Truth
        requires { class < length (known self.now).problem.classes }
        ensures { result ≡ (known self.now).class class x };

    /// Whether an edge of a reference leads from one element to another.
    fn has_edge(&self, reference: u32, x: u64, y: u64) -> Truth
        requires { reference < length (known self.now).problem.references }
        ensures { result ≡ (known self.now).edge reference x y };

    /// Whether two elements are the same.
    fn is_same(&self, x: u64, y: u64) -> Truth
        ensures { result ≡ (known self.now).same x y };

    /// Whether two elements are different.
    fn is_different(&self, x: u64, y: u64) -> Truth
        ensures { result ≡ (known self.now).different x y };

    /// The object that an element comes from.
    fn origin(&self, x: u64) -> u64
        ensures { result ≡ (known self.now).origin x };

    /// The elements that come from an object, perhaps among others.
    fn from_object(&self, object: u64) -> Elements<'_>
        ensures complete { (x : ℕ) → x < (known self.now).size → (known self.now).origin x ≡ object → includes result x ≡ true }
        ensures below { AreBelow (known self.now).size result };

    /// The elements to which an edge of a reference leads or can lead from an element, perhaps among
    /// others.
    fn ends_from(&self, reference: u32, x: u64) -> Elements<'_>
        requires { reference < length (known self.now).problem.references }
        ensures complete { (y : ℕ) → y < (known self.now).size → includes result y ≡ false → (known self.now).edge reference x y ≡ False }
        ensures below { AreBelow (known self.now).size result };

    /// The elements from which an edge of a reference leads or can lead to an element, perhaps among
    /// others.
    fn ends_into(&self, reference: u32, y: u64) -> Elements<'_>
        requires { reference < length (known self.now).problem.references }
        ensures complete { (x : ℕ) → x < (known self.now).size → includes result x ≡ false → (known self.now).edge reference x y ≡ False }
        ensures below { AreBelow (known self.now).size result };

    /// The value of a predicate at the elements of its parameters, which come first, where that is kept.
    fn kept_value(&self, predicate: u32, elements: &[u64]) -> Option<Truth>
        ensures { IfSome result (λ v. v ≡ value_of (known self.now) (Defined predicate) elements.now) };

    /// What is known of a walk of a symbol's steps, where that is kept.
    fn kept_walk(&self, symbol: Symbol, x: u64, y: u64) -> Option<Truth>
        ensures { IfSome result (λ v. v ≡ walk_of (known self.now) symbol x y) };
}
