use rf_values::{ClassSet, Count};

/// An object of a state, which stands for as many nodes as its count has.
#[derive(Clone, Copy, Debug)]
pub struct Object {
    /// The number of the problem's object that it comes from.
    pub origin: u64,
    pub count: Count,
    /// The classes that its nodes may have.
    pub candidates: ClassSet,
}
