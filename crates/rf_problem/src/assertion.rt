use crate::Symbol;
use rf_text::Items;
use rf_values::Truth;

/// A fact that the text states.
#[derive(Debug, Drop)]
pub struct Assertion {
    /// Whether it speaks only where no other assertion does.
    pub is_default: bool,
    pub symbol: Symbol,
    /// The numbers of objects; None is `*`, any object.
    pub args: Items<Option<u64>>,
    pub value: Truth,
}
