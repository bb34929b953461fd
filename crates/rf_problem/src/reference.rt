use rf_text::Text;
use rf_values::Count;

/// What a reference says of where its targets are.
#[derive(Clone, Copy, Debug, PartialEq, Eq)]
pub enum RefKind {
    Plain,
    /// The source contains the target.
    Contains,
    /// The target contains the source.
    Container,
}

/// A reference. Its number is its place in the problem's list of references, from 0.
#[derive(Debug, Drop)]
pub struct Reference {
    pub name: Text,
    pub kind: RefKind,
    /// The number of the class that declares it.
    pub source: u32,
    /// The number of the class at which its edges end.
    pub target: u32,
    /// How many edges of it a node of the source class has.
    pub range: Count,
    /// The number of its opposite: of each edge of one of the two there is the mirrored edge of the
    /// other.
    pub opposite: Option<u32>,
}
