use rf_text::Text;

/// A name as it is written in a text.
#[derive(Clone, Debug, Drop)]
pub struct Name {
    /// Without quotes.
    pub text: Text,
    /// Whether it is between single quotes.
    pub quoted: bool,
    /// The byte offset of its token, from 0.
    pub at: u64,
}

/// The name of a class, a predicate, a reference or an object, or of a member of a class.
#[derive(Clone, Debug, Drop)]
pub struct SymbolName {
    /// With a member it is the class.
    pub name: Name,
    /// What follows the `::`.
    pub member: Option<Name>,
}
