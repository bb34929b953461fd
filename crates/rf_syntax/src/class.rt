use crate::{Mult, Name};

/// A reference that a class declares.
#[derive(Debug, Drop)]
pub struct Feature {
    pub word: Option<FeatureWord>,
    /// The target class, which is first.
    pub target: Name,
    pub name: Name,
    pub mult: MultPlace,
    pub opposite: Option<Name>,
    /// Whether a semicolon ends it.
    pub semicolon: bool,
}

/// The word before a feature.
#[derive(Clone, Copy, Debug, PartialEq, Eq)]
pub enum FeatureWord {
    Contains,
    Container,
    /// It means the same as if there were no word.
    Refers,
}

/// Where in a feature the multiplicity is.
#[derive(Clone, Copy, Debug, PartialEq, Eq)]
pub enum MultPlace {
    /// Nowhere.
    Absent,
    /// Between the target class and the reference's name.
    AfterType(Mult),
    /// After the reference's name.
    AfterName(Mult),
}
