use rf_text::Items;

/// A list of at least one item.
#[derive(Debug, Drop)]
pub struct NonEmpty<T> {
    pub first: T,
    pub rest: Items<T>,
}
