/// What a fact speaks of.
#[derive(Clone, Copy, Debug, PartialEq, Eq, PartialOrd, Ord)]
pub enum Symbol {
    /// That an object has the class of this number; one argument.
    Class(u32),
    /// That an edge of the reference of this number leads from the first to the second.
    Reference(u32),
    /// That the predicate of this number holds, of as many arguments as it has parameters.
    Predicate(u32),
    /// That an object stands for a node at least; one argument.
    Exists,
    /// That an object stands for one node at most; it is named twice.
    Equals,
}
