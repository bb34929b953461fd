/// A call on the outside failed. The count of faults of what it was made on has risen, so that the
/// failure shows there.
#[derive(Clone, Copy, Debug, PartialEq, Eq)]
pub struct Failed;
