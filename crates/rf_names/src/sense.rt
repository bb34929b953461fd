use rf_problem::Symbol;

/// What the name of a symbol stands for.
#[derive(Clone, Copy, Debug, PartialEq, Eq)]
pub enum Sense {
    Nothing,
    One(Symbol),
    /// For more than one, so it is ambiguous.
    Several,
}
