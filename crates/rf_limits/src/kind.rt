/// What a problem may have only so many of.
#[derive(Clone, Copy, Debug, PartialEq, Eq)]
pub enum LimitKind {
    Classes,
    References,
    Predicates,
    Scopes,
    Parameters,
    Clauses,
    Literals,
    Variables,
    Objects,
    Assertions,
}
