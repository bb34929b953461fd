use rf_limits::LimitKind;
use thiserror::Error;

/// Why the names of a text don't make a problem. The rules are asked in this order, and the number is
/// the least byte offset at which the first one that is broken is broken.
#[derive(Clone, Copy, Debug, PartialEq, Eq, Error)]
pub enum NameError {
    /// A name is declared that is declared earlier in its space, or that the language reserves.
    #[error("declared twice")]
    Twice(u64),
    /// A name stands for nothing of the kind that is needed there.
    #[error("unknown name")]
    Unknown(u64),
    /// A symbol or a member stands for more than one.
    #[error("ambiguous name")]
    Ambiguous(u64),
    /// A class extends itself, directly or through others.
    #[error("class extends itself")]
    ClassCycle(u64),
    /// A name after `opposite` stands for no reference that leads back and has this one as its own
    /// opposite.
    #[error("no opposite of the reference")]
    BadOpposite(u64),
    /// A `container` reference has no `contains` reference as its opposite, or a `contains` reference
    /// has one.
    #[error("containment without its opposite")]
    BadContainer(u64),
    /// The upper number of a range is less than the lower one.
    #[error("range without numbers")]
    BadRange(u64),
    /// A symbol has not as many arguments as parameters, or a `+` after it and not two parameters.
    #[error("number of arguments")]
    Arity(u64),
    /// A variable that isn't a parameter stands in negated literals only, and in several of them.
    #[error("variable in several negations only")]
    LooseVariable(u64),
    /// A predicate calls itself, directly or through others.
    #[error("recursive predicate")]
    Recursive(u64),
    /// An `equals` whose arguments are not the same object named twice.
    #[error("equals of two objects")]
    EqualsTwo(u64),
    /// The first one past a limit.
    #[error("limit")]
    Limit(LimitKind, u64),
}
