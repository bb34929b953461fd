//! How many objects a state may have for its decisions to be counted.

/// The most objects of a state whose decisions are chosen among: so their number fits a `u64`.
pub const MOST_OBJECTS: u64 = 134_217_728;
