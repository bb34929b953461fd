//! Rules, each by its line of the table and its numbers.

ghost use Rattle.std.specs.Prelude.{◌≡◌};
ghost use Rattle.rf_rules.specs.Rules.{is_closing};

use rf_values::{Objects, Tuple};

/// An end of an edge.
#[derive(Clone, Copy, Debug, PartialEq, Eq)]
pub enum End {
    Target,
    Source,
}

/// A rule at some numbers: of references, scopes, predicates, clauses and literals, `u32`, and of objects,
/// `u64`, in the order of its line. What each asks for and does stands beside the families, `specs/Types`
/// to `specs/Predicates`; `Empty`, `Under` and `Broken` are closings.
#[derive(Clone, Copy, Debug, PartialEq, Eq)]
pub enum Rule {
    Empty(u64),
    NoClass(u64),
    Src(u32, u64, u64),
    Tgt(u32, u64, u64),
    Clash(u32, u64, u64, End),
    Full(u32, u64, u64),
    Room(u32, u64, u64),
    Need(u32, u64, u64),
    NeedCount(u32, u64, u64),
    TypeLow(u32, u64),
    OneContainer(u32, u64, u64, u32, u64),
    Alone(u32, u64, u64),
    MustContain(u32, u64, u64),
    ContainCount(u32, u64, u64),
    NoContainer(u64),
    Acyclic(u32, u64, u64),
    Under(u32),
    ScopeTop(u32, u64),
    ScopeBottom(u32, u64),
    ScopeOut(u32, u64),
    ScopeIn(u32, u64),
    /// A predicate and as many objects as it has parameters.
    Broken(u32, Tuple),
    /// A predicate, a clause and a literal of it, and an object for each variable that ranges over the clause.
    Forced(u32, u32, u32, Objects),
}

impl Rule {
    /// Whether it is a closing: it says that the state has no graph, and does nothing else.
    pub fn is_closing(&self) -> bool
        ensures { result ≡ is_closing self.now }
    {
        matches!(self, Rule::Empty(_) | Rule::Under(_) | Rule::Broken(_, _))
    }
}
