/// The formats of tree documents, which their first lines tell.
#[derive(Clone, Copy, Debug, PartialEq, Eq)]
pub enum Format {
    /// `tree 1`: lines of at most 128 bytes, without the rule `forced`.
    One,
    /// `tree 2`: lines of at most 256 bytes.
    Two,
}
