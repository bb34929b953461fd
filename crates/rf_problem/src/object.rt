use rf_text::Text;
use rf_values::Count;

/// What an object is called.
#[derive(Clone, Debug, Drop)]
pub enum ObjectName {
    Named(Text),
    /// `C::new`, the object that the new nodes of the class of this number come from.
    NewOf(u32),
}

/// What an object is besides.
#[derive(Clone, Copy, Debug, PartialEq, Eq)]
pub enum ObjectKind {
    /// Nothing more. So is each `C::new`.
    Plain,
    /// It may be named in the bodies of predicates.
    Atom,
    /// It may be, and it is a literal of the enum of this class number.
    LiteralOf(u32),
}

/// An object of the input, which stands for as many nodes as its count admits. Its number is its
/// place in the problem's list of objects, from 0.
#[derive(Debug, Drop)]
pub struct ObjectDecl {
    pub name: ObjectName,
    /// Its count as declared, before assertions on `exists` and `equals`.
    pub count: Count,
    pub kind: ObjectKind,
}
