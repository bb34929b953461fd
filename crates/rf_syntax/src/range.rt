/// A range of numbers, as `2`, `0..1` or `1..*`.
#[derive(Clone, Copy, Debug, PartialEq, Eq)]
pub struct Range {
    /// The byte offset of the token of the lower number, from 0.
    pub at: u64,
    pub lo: u32,
    pub hi: Upper,
}

/// What follows the lower number of a range.
#[derive(Clone, Copy, Debug, PartialEq, Eq)]
pub enum Upper {
    /// Nothing: the lower number alone.
    Absent,
    /// `..*`
    Star,
    /// `..` and a number.
    Number(u32),
}

/// The multiplicity of a reference, in brackets. They may be empty.
#[derive(Clone, Copy, Debug, PartialEq, Eq)]
pub struct Mult {
    pub range: Option<Range>,
}
